// The law of the graph of a valid query, as a theorem.
ghost use Rattle.qgm_translation_laws.specs.Laid.{GraphIsRight, GraphsAlike, GraphsOneToOne, GraphsPrintAlike, LaidIsGraph, LaidIsNumbered};

/// The graph that is built of a valid query over a valid schema is well-formed, its root reaches every
/// box and has the columns and the rows of the query, by places and by names; the boxes that are laid
/// for the query make such a graph, their quantifiers have numbers of their own, and in two such graphs
/// numbers stand for one another one to one, in which alone the graphs differ, so that both print one
/// text. It does nothing.
pub fn laid_graph_laws()
    ensures right { GraphIsRight }
    ensures laid { LaidIsGraph }
    ensures numbered { LaidIsNumbered }
    ensures one_to_one { GraphsOneToOne }
    ensures alike { GraphsAlike }
    ensures text { GraphsPrintAlike }
{}
