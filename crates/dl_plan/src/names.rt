//! When lists of names are in conflict.
ghost use Rattle.std.specs.Prelude.{◌≡◌};
ghost use Rattle.dl_plan.specs.Names.{is_one_of, none_is_one_of, none_is_empty, all_differ};
ghost use Rattle.dl_plan.specs.Views.{texts};

/// Whether none of the names is empty.
pub(crate) fn none_is_empty(names: &[&str]) -> bool
    ensures { result ≡ none_is_empty (texts names.now) }
{
    names.iter().all(|name| !name.is_empty())
}

/// Whether no two of the names are equal.
pub(crate) fn all_differ(names: &[&str]) -> bool
    ensures { result ≡ all_differ (texts names.now) }
{
    for (i, name) in names.iter().enumerate() {
        if is_one_of(&names[i + 1..], name) {
            return false;
        }
    }
    true
}

/// Whether none of the names is one of the others.
pub(crate) fn none_is_one_of(others: &[&str], names: &[&str]) -> bool
    ensures { result ≡ none_is_one_of (texts others.now) (texts names.now) }
{
    names.iter().all(|name| !is_one_of(others, name))
}

/// Whether the name is among the others.
pub(crate) fn is_one_of(others: &[&str], name: &str) -> bool
    ensures { result ≡ is_one_of (texts others.now) name.now }
{
    others.iter().any(|other| *other == name)
}
