// The laws, as theorems.
ghost use Rattle.rule_magic.specs.AbsorbGroup.{GroupBags, KeylessBags, GroupLowers, GroupPreserves, KeylessLowers, KeylessPreserves};
ghost use Rattle.rule_magic.specs.AbsorbMeasure.{CompactLowers, FeedFiringLowers, GroupFiringLowers, OuterFiringLowers, ScalarFiringLowers, SelectFiringLowers, SetFiringLowers};
ghost use Rattle.rule_magic.specs.AbsorbOuterJoin.{OuterArmsBags, OuterArmsLowers, OuterArmsPreserves, OuterLeftBags, OuterLeftLowers, OuterLeftPreserves};
ghost use Rattle.rule_magic.specs.AbsorbSelect.{SelectBags, SelectLowers, SelectPreserves};
ghost use Rattle.rule_magic.specs.AbsorbSetOperation.{SetBags, SetLowers, SetOpenLowers, SetOpenPreserves, SetOpenSound, SetPreserves, SetsGiven};
ghost use Rattle.rule_magic.specs.CalmFires.{CalmFires};
ghost use Rattle.rule_magic.specs.Region.{ArmHasRegion, RegionForms, RegionRenames, RegionStays};
ghost use Rattle.rule_magic.specs.Renamed.{RenamedIsMade, RenamedIsTyped};
ghost use Rattle.rule_magic.specs.UnderTags.{BothArmsUnderTags, DistinctUnderTags, KeyedGroupsUnderTags, LeftArmUnderTags, SelectsUnderTags, SetsUnderTags, SingleGroupsUnderTags};

/// Bags over the rows of a magic box: DISTINCT, set operations, groups, selects and outer joins of rows that begin with a tag are, under each tag, those of its rows. It does nothing.
pub fn row_laws()
    ensures distinct { DistinctUnderTags }
    ensures sets { SetsUnderTags }
    ensures keyed_groups { KeyedGroupsUnderTags }
    ensures single_groups { SingleGroupsUnderTags }
    ensures selects { SelectsUnderTags }
    ensures left_arm { LeftArmUnderTags }
    ensures both_arms { BothArmsUnderTags }
{}

/// G2 to G5: the box that stands in the place of a fed box has its bag, in every environment, and the graph is preserved: by G3 with keys and without, by G4 and G5 with a closed right operand and with an open one; the conditions of G4 give what its bag needs. Boxes below an open operand may be renamed, and keep their types and forms. It does nothing.
pub fn absorbing_laws()
    ensures select { SelectBags }
    ensures select_preserves { SelectPreserves }
    ensures group { GroupBags }
    ensures group_preserves { GroupPreserves }
    ensures keyless { KeylessBags }
    ensures keyless_preserves { KeylessPreserves }
    ensures sets { SetBags }
    ensures sets_given { SetsGiven }
    ensures set_preserves { SetPreserves }
    ensures set_open_sound { SetOpenSound }
    ensures set_open_preserves { SetOpenPreserves }
    ensures region { ArmHasRegion }
    ensures region_renames { RegionRenames }
    ensures region_stays { RegionStays }
    ensures region_forms { RegionForms }
    ensures renamed { RenamedIsMade }
    ensures renamed_types { RenamedIsTyped }
    ensures outer_left { OuterLeftBags }
    ensures outer_left_preserves { OuterLeftPreserves }
    ensures outer_arms { OuterArmsBags }
    ensures outer_arms_preserves { OuterArmsPreserves }
{}

/// G2 to G5 lower the measure; a graph that is lower stays lower without the boxes that its root doesn't reach, so each firing of U2 and of G1 to G5 lowers it. It does nothing.
pub fn measure_laws()
    ensures select { SelectLowers }
    ensures group { GroupLowers }
    ensures keyless { KeylessLowers }
    ensures set { SetLowers }
    ensures set_open { SetOpenLowers }
    ensures outer_left { OuterLeftLowers }
    ensures outer_arms { OuterArmsLowers }
    ensures compacted { CompactLowers }
    ensures scalar_fires { ScalarFiringLowers }
    ensures feed_fires { FeedFiringLowers }
    ensures select_fires { SelectFiringLowers }
    ensures group_fires { GroupFiringLowers }
    ensures set_fires { SetFiringLowers }
    ensures outer_fires { OuterFiringLowers }
{}

/// In a calm graph with an open box one of the rules of class magic has a place. It does nothing.
pub fn calm_laws()
    ensures fires { CalmFires }
{}
