// The law of boxes that show a query, as a theorem.
ghost use Rattle.qgm_translation.specs.Law.{Agrees, HasColumns, LooksIn, RootAgrees, RootClosed};
ghost use Rattle.qgm_translation.specs.Refused.{Refused};
ghost use Rattle.qgm_translation.specs.Samples.{Sampled};
ghost use Rattle.qgm_translation.specs.Views.{NamesStand, ViewsStand};

/// A box that shows a query through a map gives, in every environment, the rows that the query has
/// in the scopes that the map shows there, and looks up only quantifiers that are seen in the map;
/// names of views stand for the rows of their bodies. It does nothing.
pub fn shown_laws()
    ensures agrees { Agrees }
    ensures root { RootAgrees }
    ensures looks { LooksIn }
    ensures closed { RootClosed }
    ensures views { ViewsStand }
    ensures names { NamesStand }
    ensures columns { HasColumns }
{}

/// What a query, its graph and their rows come to, and graphs that are not built of their queries.
/// It does nothing.
pub fn examples()
    ensures sampled { Sampled }
    ensures refused { Refused }
{}
