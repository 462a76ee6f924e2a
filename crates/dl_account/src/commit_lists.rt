//! The commits of an account, in one list or in several.
ghost use Rattle.std.specs.Prelude.{◌≡◌};
ghost use Rattle.dl_account.specs.CommitLists.{commits_in};

use dl_entry::Commit;

/// The commits of an account, in its order: those of the first slice, then those of each list.
#[derive(Clone, Copy)]
pub struct CommitLists<'a> {
    pub whole: &'a [Commit],
    pub by_thread: &'a [Vec<Commit>],
}

impl<'a> CommitLists<'a> {
    /// Commits that are in one slice.
    pub fn of(commits: &'a [Commit]) -> CommitLists<'a>
        ensures { commits_in result ≡ commits.now }
    {
        CommitLists {
            whole: commits,
            by_thread: &[],
        }
    }
}
