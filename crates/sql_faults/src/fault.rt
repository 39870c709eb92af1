// Faults in their order, and the rules that are broken at one node.
ghost use Rattle.std.specs.Prelude.{◌≡◌, Some};
ghost use Rattle.sql_faults.specs.Numbers.{number};
ghost use Rattle.sql_faults.specs.Rules as spec;

use crate::site::Site;

/// Why a query isn't valid, the first of several in this order.
#[derive(Clone, Copy)]
pub(crate) enum Fault {
    UnknownTable,
    DuplicateRange,
    UnknownColumn,
    Ambiguous,
    TypeMismatch,
    Degree,
    Grouping,
    AggregatePlace,
    OrderColumn,
}

// The place of a fault in their order.
pub(crate) fn order(fault: Fault) -> u8
    ensures { result ≡ number (Some fault) }
{
    match fault {
        Fault::UnknownTable => 6,
        Fault::DuplicateRange => 7,
        Fault::UnknownColumn => 8,
        Fault::Ambiguous => 9,
        Fault::TypeMismatch => 10,
        Fault::Degree => 11,
        Fault::Grouping => 12,
        Fault::AggregatePlace => 13,
        Fault::OrderColumn => 14,
    }
}

// The first of two faults, where there are two.
#[tactic(auto, using(crate::proofs::Orders::lesser_none, crate::proofs::Orders::lesser_first, crate::proofs::Orders::lesser_second))]
pub(crate) fn lesser(a: Option<Fault>, b: Option<Fault>) -> Option<Fault>
    ensures { number result ≡ spec.lesser (number a) (number b) }
{
    match (a, b) {
        (None, other) => other,
        (Some(a), None) => Some(a),
        (Some(a), Some(b)) => {
            if order(a) <= order(b) {
                Some(a)
            } else {
                Some(b)
            }
        }
    }
}

// A fault where a test says so.
pub(crate) fn fault_if(test: bool, fault: Fault) -> Option<Fault>
    ensures { number result ≡ spec.fault_if test (number (Some fault)) }
{
    if test { Some(fault) } else { None }
}

// The fault of an aggregate at a place.
pub(crate) fn aggregate_misplaced(place: Site) -> Option<Fault>
    ensures { number result ≡ spec.aggregate_misplaced place }
{
    match place {
        Site::Listed => None,
        Site::Filtered | Site::Argument => Some(Fault::AggregatePlace),
    }
}

// The fault of a subquery at a place.
pub(crate) fn sub_misplaced(place: Site) -> Option<Fault>
    ensures { number result ≡ spec.sub_misplaced place }
{
    match place {
        Site::Listed | Site::Filtered => None,
        Site::Argument => Some(Fault::AggregatePlace),
    }
}
