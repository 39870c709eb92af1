// The law of the boxes that are made, as a theorem.
ghost use Rattle.qgm_translation.specs.Lays.{CountedOnce, LaidAlike, Lays, Starts};
ghost use Rattle.qgm_translation.specs.WholeLaw.{WholeIsLaid};
ghost use Rattle.qgm_translation.specs.LaidSample.{Sampled};

/// What is made for a query shows it, and all that was made before stays; tables and views stand
/// before it. What is laid by what is known so far is the same.
/// The graph of a query over tables and views is built of the query, and stands in order. It does nothing.
pub fn laid_laws()
    ensures lays { Lays }
    ensures alike { LaidAlike }
    ensures whole { WholeIsLaid }
    ensures starts { Starts }
    ensures once { CountedOnce }
    ensures sampled { Sampled }
{}
