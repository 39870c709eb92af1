// The classes that a text names.
ghost use Rattle.std.specs.Prelude.{◌≡◌, ◌==◌, [], None, Some, IfOk, IsErrOf};
ghost use Rattle.std.specs.List.{slice_split};
ghost use Rattle.command_line.specs.Classes.{class_named, classes_named, classes_with, with_class};

use crate::refusal::WordsRefusal;
use rule_plan::{Class, Classes};
use std::alloc::Global;

// The class that a text names.
fn class_named(text: &str) -> Option<Class>
    ensures { result ≡ class_named text.now }
{
    match text {
        "merge" => Some(Class::Merge),
        "subquery" => Some(Class::Subquery),
        "distinct" => Some(Class::Distinct),
        "push" => Some(Class::Push),
        "trans" => Some(Class::Trans),
        "prune" => Some(Class::Prune),
        "magic" => Some(Class::Magic),
        _ => None,
    }
}

// Adds the class of this name, which must not stand yet.
fn add_named(classes: &mut Classes, name: &str) -> Result<(), WordsRefusal>
    ensures ok { IfOk result (λ _. with_class classes.old name.now ≡ Some classes.new) }
    ensures usage { IsErrOf result WordsRefusal.Usage → with_class classes.old name.now ≡ None }
{
    let Some(class) = class_named(name) else {
        return Err(WordsRefusal::Usage);
    };
    if classes.contains(class) {
        return Err(WordsRefusal::Usage);
    }
    classes.push(class)?;
    Ok(())
}

// The classes of the names between commas, in their order, each once.
fn classes_listed(alloc: Global, text: &str) -> Result<Classes, WordsRefusal>
    ensures ok { IfOk result (λ c. classes_with [] (slice_split (λ b. b == 44) text.now) ≡ Some c) }
    ensures usage { IsErrOf result WordsRefusal.Usage → classes_with [] (slice_split (λ b. b == 44) text.now) ≡ None }
{
    let mut classes = Classes::new(alloc);
    let mut rest = text;
    while let Some((name, after)) = rest.split_once(',') {
        add_named(&mut classes, name)?;
        rest = after;
    }
    add_named(&mut classes, rest)?;
    Ok(classes)
}

/// The classes that a text names: those of the names between commas, or no class for `none`.
pub(crate) fn classes_named(alloc: Global, text: &str) -> Result<Classes, WordsRefusal>
    ensures ok { IfOk result (λ c. classes_named text.now ≡ Some c) }
    ensures usage { IsErrOf result WordsRefusal.Usage → classes_named text.now ≡ None }
{
    if text == "none" {
        Ok(Classes::new(alloc))
    } else {
        classes_listed(alloc, text)
    }
}
