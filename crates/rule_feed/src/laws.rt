// The laws, as theorems.
ghost use Rattle.rule_feed.specs.FeedCode.{SettleComes, SplitComes};
ghost use Rattle.rule_feed.specs.FeedLaws.{FeedBags, FeedShaped, FeedSound, FeedTags, FeedTyped};
ghost use Rattle.rule_feed.specs.FeedMeasure.{FeedMeasured, FeedingLowers, SplitMeasured};
ghost use Rattle.rule_feed.specs.FeedPreserves.{FeedPlaces, FeedPreserves, FiringLowers};
ghost use Rattle.rule_feed.specs.FeedSample.{Fed};
ghost use Rattle.rule_feed.specs.FillSteps.{FillComes};
ghost use Rattle.rule_feed.specs.Split.{SplitBags, SplitRows, SplitShaped, SplitSound, SplitTyped};
ghost use Rattle.rule_feed.specs.Turn.{TurnPreserves};

/// G1: quantifiers and conjuncts of a select may go into a select of their own, and a box that looks columns of one quantifier up may be fed with them. Both keep the root's bag, soundness, types and shapes. Splitting leaves the parts of the measure as they are, and feeding lowers it. The magic box gives each tuple of the named columns that occurs once and at yes (`fed_tags`). The clause `sample` has small graphs for F, E and A. It does nothing.
pub fn feeding_laws()
    ensures split { SplitBags }
    ensures split_rows { SplitRows }
    ensures split_sound { SplitSound }
    ensures split_typed { SplitTyped }
    ensures split_shaped { SplitShaped }
    ensures split_measured { SplitMeasured }
    ensures fed { FeedBags }
    ensures fed_sound { FeedSound }
    ensures fed_typed { FeedTyped }
    ensures fed_shaped { FeedShaped }
    ensures fed_tags { FeedTags }
    ensures fed_measured { FeedMeasured }
    ensures fed_lowers { FeedingLowers }
    ensures sample { Fed }
{}

/// G1 whole: its places are exactly those where its condition holds (`places`), and where it holds the action preserves the graph (`preserves`), and the graph that it compacts has a lower measure (`lowers`). A step of it: quantifiers over closed boxes come to stand side by side (`turned`). The edits that settle an S, those of the split and those that feed come to the action's (`settled`, `split`, `filled`). It does nothing.
pub fn feed_laws()
    ensures places { FeedPlaces }
    ensures turned { TurnPreserves }
    ensures settled { SettleComes }
    ensures split { SplitComes }
    ensures filled { FillComes }
    ensures preserves { FeedPreserves }
    ensures lowers { FiringLowers }
{}
