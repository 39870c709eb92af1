// The form that a comparison has in a reading.
ghost use Rattle.std.specs.Prelude.{◌≡◌, ◌++◌, List, OnOk, ℕ};
ghost use Rattle.qgm_terms.specs.Shown.{sign};
ghost use Rattle.graph_sql.specs.Readings as reading_spec;
ghost use Rattle.graph_sql.specs.Scoped as spec;
ghost use Rattle.graph_sql.specs.Statement.{Expression};
ghost use Rattle.graph_sql.specs.Text as text_spec;

use crate::reading::{Comparison, Reading};
use graph_print::put_word;
use qgm_terms::{Sign, both, either};
use shared_types::{OutOfMemory, Text};

/// What is asked of a comparison.
#[derive(Clone, Copy)]
pub enum Wrap {
    /// Whether it is true.
    Bare,
    /// Whether it isn't true, of a comparison that may be unknown.
    NotTrue,
    /// Whether it isn't false.
    NotFalse,
}

/// A comparison, and what is asked of it.
#[derive(Clone, Copy)]
pub struct Form {
    pub comparison: Comparison,
    pub wrap: Wrap,
}

// The comparison that is true where one of this sign is.
fn is(s: Sign) -> Comparison
    ensures { result ≡ reading_spec.is (sign s) }
{
    match s {
        Sign::Eq => Comparison::Equal,
        Sign::Ne => Comparison::Unequal,
        Sign::Lt => Comparison::Below,
        Sign::Le => Comparison::AtMost,
        Sign::Gt => Comparison::Above,
        Sign::Ge => Comparison::AtLeast,
        Sign::Same => Comparison::Same,
        Sign::Like => Comparison::Like,
    }
}

// The comparison that is true where one of this sign is false.
fn is_not(s: Sign) -> Comparison
    ensures { result ≡ reading_spec.is_not (sign s) }
{
    match s {
        Sign::Eq => Comparison::Unequal,
        Sign::Ne => Comparison::Equal,
        Sign::Lt => Comparison::AtLeast,
        Sign::Le => Comparison::Above,
        Sign::Gt => Comparison::AtMost,
        Sign::Ge => Comparison::Below,
        Sign::Same => Comparison::NotSame,
        Sign::Like => Comparison::NotLike,
    }
}

// The form of a comparison other than null-safe equality.
fn plain_form(reading: Reading, s: Sign, sure: bool) -> Form
    ensures { (x y : Expression (List ℕ)) → spec.formed result x y ≡ reading_spec.plain_sql reading (sign s) sure x y }
{
    match reading {
        Reading::True => Form {
            comparison: is(s),
            wrap: Wrap::Bare,
        },
        Reading::False => Form {
            comparison: is_not(s),
            wrap: Wrap::Bare,
        },
        Reading::NotTrue => {
            if sure {
                Form {
                    comparison: is_not(s),
                    wrap: Wrap::Bare,
                }
            } else {
                Form {
                    comparison: is(s),
                    wrap: Wrap::NotTrue,
                }
            }
        }
        Reading::NotFalse => {
            if sure {
                Form {
                    comparison: is(s),
                    wrap: Wrap::Bare,
                }
            } else {
                Form {
                    comparison: is(s),
                    wrap: Wrap::NotFalse,
                }
            }
        }
    }
}

// The form of whether two cells are the same.
fn same_form(one: bool) -> Form
    ensures { (x y : Expression (List ℕ)) → spec.formed result x y ≡ reading_spec.are_same one x y }
{
    if one {
        Form {
            comparison: Comparison::Equal,
            wrap: Wrap::Bare,
        }
    } else {
        Form {
            comparison: Comparison::Same,
            wrap: Wrap::Bare,
        }
    }
}

// The form of whether two cells aren't the same.
fn not_same_form(one: bool, two: bool) -> Form
    ensures { (x y : Expression (List ℕ)) → spec.formed result x y ≡ reading_spec.are_not_same one two x y }
{
    if two {
        Form {
            comparison: Comparison::Unequal,
            wrap: Wrap::Bare,
        }
    } else if one {
        Form {
            comparison: Comparison::Equal,
            wrap: Wrap::NotTrue,
        }
    } else {
        Form {
            comparison: Comparison::NotSame,
            wrap: Wrap::Bare,
        }
    }
}

// The form of null-safe equality, where one operand, and where both are known not to be null.
fn same_forms(reading: Reading, one: bool, two: bool) -> Form
    ensures { (x y : Expression (List ℕ)) → spec.formed result x y ≡ reading_spec.same_sql reading one two x y }
{
    match reading {
        Reading::True | Reading::NotFalse => same_form(one),
        Reading::False | Reading::NotTrue => not_same_form(one, two),
    }
}

/// The form of a comparison in a reading, by whether each operand is known not to be null.
pub fn form_of(reading: Reading, s: Sign, a: bool, b: bool) -> Form
    ensures { (x y : Expression (List ℕ)) → spec.formed result x y ≡ reading_spec.compare_sql reading (sign s) a b x y }
{
    match s {
        Sign::Same => same_forms(reading, either(a, b), both(a, b)),
        Sign::Eq | Sign::Ne | Sign::Lt | Sign::Le | Sign::Gt | Sign::Ge | Sign::Like => {
            plain_form(reading, s, both(a, b))
        }
    }
}

/// Adds what stands before the operands.
pub fn put_open_form(form: Form, out: &mut Text) -> Result<(), OutOfMemory>
    ensures { OnOk result (out.new ≡ out.old ++ spec.open_form form) }
{
    match form.wrap {
        Wrap::Bare => {}
        Wrap::NotTrue | Wrap::NotFalse => put_word(b"(", out)?,
    }
    match form.comparison {
        Comparison::Same | Comparison::NotSame => put_word(b"(ARRAY[", out),
        Comparison::Equal
        | Comparison::Unequal
        | Comparison::Below
        | Comparison::AtMost
        | Comparison::Above
        | Comparison::AtLeast
        | Comparison::Like
        | Comparison::NotLike => put_word(b"(", out),
    }
}

/// Adds what stands between the operands.
pub fn put_comparison(comparison: Comparison, out: &mut Text) -> Result<(), OutOfMemory>
    ensures { OnOk result (out.new ≡ out.old ++ text_spec.comparison_word comparison) }
{
    match comparison {
        Comparison::Equal => put_word(b" = ", out),
        Comparison::Unequal => put_word(b" <> ", out),
        Comparison::Below => put_word(b" < ", out),
        Comparison::AtMost => put_word(b" <= ", out),
        Comparison::Above => put_word(b" > ", out),
        Comparison::AtLeast => put_word(b" >= ", out),
        Comparison::Like => put_word(b" LIKE ", out),
        Comparison::NotLike => put_word(b" NOT LIKE ", out),
        Comparison::Same => put_word(b"] = ARRAY[", out),
        Comparison::NotSame => put_word(b"] <> ARRAY[", out),
    }
}

fn put_close_comparison(comparison: Comparison, out: &mut Text) -> Result<(), OutOfMemory>
    ensures { OnOk result (out.new ≡ out.old ++ text_spec.close_comparison comparison) }
{
    match comparison {
        Comparison::Same | Comparison::NotSame => put_word(b"])", out),
        Comparison::Like | Comparison::NotLike => put_word(b" ESCAPE '')", out),
        Comparison::Equal
        | Comparison::Unequal
        | Comparison::Below
        | Comparison::AtMost
        | Comparison::Above
        | Comparison::AtLeast => put_word(b")", out),
    }
}

fn put_close_wrap(wrap: Wrap, out: &mut Text) -> Result<(), OutOfMemory>
    ensures { OnOk result (out.new ≡ out.old ++ spec.close_wrap wrap) }
{
    match wrap {
        Wrap::Bare => Ok(()),
        Wrap::NotTrue => put_word(b" IS NOT TRUE)", out),
        Wrap::NotFalse => put_word(b" IS NOT FALSE)", out),
    }
}

/// Adds what stands behind the operands.
pub fn put_close_form(form: Form, out: &mut Text) -> Result<(), OutOfMemory>
    ensures { OnOk result (out.new ≡ out.old ++ spec.close_form form) }
{
    put_close_comparison(form.comparison, out)?;
    put_close_wrap(form.wrap, out)
}
