// Queries and what they come to, as theorems.
ghost use Rattle.sql_meaning.specs.Examples.{OfAnswers, OfCells, OfConditions, OfGroups, OfJoins, OfSets, OfSubqueries};

/// What sample queries over sample tables come to. It does nothing.
pub fn examples()
    ensures cells { OfCells }
    ensures conditions { OfConditions }
    ensures subqueries { OfSubqueries }
    ensures joins { OfJoins }
    ensures groups { OfGroups }
    ensures sets { OfSets }
    ensures answers { OfAnswers }
{}
