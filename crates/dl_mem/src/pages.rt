//! The pages of a memory, one after another.
ghost use Rattle.std.specs.Prelude.{◌≡◌, ◌+◌, ◌≤◌, length, take, drop, IfOk};
ghost use Rattle.std.specs.List.{concat};
ghost use Rattle.dl_mem.specs.Memories.{IsPaged, Renews};

use crate::page::{PAGE, Page};
use crate::shared::Shared;
use std::alloc::{AllocError, Global};

pub(crate) fn new_pages(alloc: Global, pages: &[[u8; PAGE]]) -> Result<Vec<Page>, AllocError>
    ensures { IfOk result (λ made. made.items ≡ pages.now) }
{
    let mut made = Vec::with_capacity(alloc, pages.len())?;
    for page in pages {
        made.push(Page::new(page))?;
    }
    Ok(made)
}

pub(crate) fn restored_pages(alloc: Global, shared: &[Shared]) -> Result<Vec<Page>, AllocError>
    ensures { IfOk result (λ made. made.items ≡ shared.now) }
{
    let mut made = Vec::with_capacity(alloc, shared.len())?;
    for page in shared {
        made.push(Page::from_shared(page.share()?))?;
    }
    Ok(made)
}

// What a snapshot shows of each page.
pub(crate) fn shared_pages(alloc: Global, pages: &[Page]) -> Result<Vec<Shared>, AllocError>
    ensures { IfOk result (λ shared. shared.items ≡ pages.now) }
{
    let mut shared = Vec::with_capacity(alloc, pages.len())?;
    for page in pages {
        shared.push(page.share(alloc)?)?;
    }
    Ok(shared)
}

// What each page with a mark will keep of that.
pub(crate) fn renewals(
    alloc: Global,
    pages: &[Page],
    shared: &[Shared],
) -> Result<Vec<Option<Shared>>, AllocError>
    requires { shared.now ≡ pages.now }
    ensures { IfOk result (λ renewals. Renews pages.now renewals.items) }
{
    let mut renewals = Vec::with_capacity(alloc, pages.len())?;
    for i in 0..pages.len() {
        renewals.push(pages[i].renewal(&shared[i])?)?;
    }
    Ok(renewals)
}

// Makes the pages keep that, which changes none of their bytes.
pub(crate) fn keep(pages: &mut [Page], mut renewals: Vec<Option<Shared>>)
    requires { Renews pages.old renewals.items }
    ensures { pages.new ≡ pages.old }
{
    for i in 0..pages.len().min(renewals.len()) {
        pages[i].keep(renewals[i].take());
    }
}

// Copies the bytes from a place on: those of its page, and then those of the pages after it.
pub(crate) fn copy_pages(pages: &[Page], at: usize, into: &mut [u8])
    requires paged { IsPaged pages.now }
    requires inside { at + length into.old ≤ length (concat pages.now) }
    ensures { into.new ≡ take (length into.old) (drop at (concat pages.now)) }
{
    if into.is_empty() {
        return;
    }
    let here = into.len().min(PAGE - at % PAGE);
    let (front, back) = into.split_at_mut(here);
    pages[at / PAGE].copy_to(at % PAGE, front);
    copy_pages(pages, at + here, back);
}
