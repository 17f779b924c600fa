// The modules of a saved ledger join one by one, in their order, with a stub in place of each that names one which isn't there yet;
// then each such module takes the place of its stub, and short ones do so together. So few are held decoded at once: no more than
// 64, and all but the last of them have fewer than 65,536 bytes together.
ghost use Rattle.std.specs.Prelude.{◌≡◌, ◌<◌, ◌≤◌, [], true, length, slice_get, IfOk, IfErr, IfSome, OnOk};
ghost use Rattle.std.specs.Str.{bytes_eq};
ghost use Rattle.mv_move_types.specs.Limits.{most_modules};
ghost use Rattle.mv_move_types.specs.Refusals.{IsRefusedBy};
ghost use Rattle.mv_linker.specs.News.{AreTexts, HasItsTexts};
ghost use Rattle.mv_ledger_state.specs.Asking.{offer_of, offers_of};
ghost use Rattle.mv_saved_text.specs.Parts.LoadedParts.{AreNotJoined, IsOffered, IsPassed};
ghost use Rattle.mv_ledger_state.specs.Publishing.{AllPass, FailsAmong, FailsAt};

use crate::loading::order::order;
use crate::loading::stubs::{Stub, Stubs};
use crate::loading::{LoadError, because};
use mv_ledger_state::{Offered, Published, are_bytes, verified};
use mv_linker::{New, Store};
use mv_move_types::Refusal;
use mv_move_types::limits::MOST_MODULE_BYTES;
use std::alloc::{AllocError, Global};

// How many modules take the places of stubs together at most.
const MOST_TOGETHER: usize = 64;

/// Whether they are the same bytes.
fn are_same(a: &[u8], b: &[u8]) -> bool
    ensures { result ≡ bytes_eq a.now b.now }
{
    a == b
}

/// Whether the module at a place is this offered one.
fn is_offered(store: &Store, place: usize, offer: &Offered<'_>) -> bool
    requires { place < length store.now }
    ensures { result ≡ true → IfSome (slice_get store.now place) (IsOffered (offer_of offer.now)) }
{
    // For the prover: the store's modules passed their phases, and their texts spell them.
    let _modules = store.len();
    mv_binary_format::modules_are_read_by_text();
    are_bytes(offer.text);
    let (text, certificate) = store.texts(place);
    are_same(text, offer.text) && are_same(certificate, offer.certificate)
}

/// Whether the modules of a store are these offered ones.
fn are_offered(store: &Store, offers: &[Offered<'_>]) -> bool
    ensures { result ≡ true → AllPass (offers_of offers.now) store.now }
{
    if store.len() != offers.len() {
        return false;
    }
    'each: for place in 0..offers.len() {
        if !is_offered(store, place, &offers[place]) {
            return false;
        }
    }
    true
}

/// The first of the offered modules at these places, which can be published together: more than one only where they are short.
///
/// # Errors
///
/// The first phase that one of them fails; `Memory`, where a growth was refused.
fn next_news<'a>(
    alloc: Global,
    offers: &[Offered<'a>],
    places: &[u16],
) -> Result<Vec<New<'a>>, Refusal>
    ensures { IfOk result (λ v. AreTexts v.items) }
{
    let mut news = Vec::new(alloc);
    let mut size: usize = 0;
    'each: for place in places {
        if size >= MOST_MODULE_BYTES || news.len() >= MOST_TOGETHER {
            return Ok(news);
        }
        let Some(offer) = offers.get(usize::from(*place)) else {
            return Ok(news);
        };
        news.push(verified(alloc, offer)?)
            .map_err(AllocError::from)?;
        size = size.saturating_add(offer.text.len());
    }
    Ok(news)
}

/// Publishes modules, and says whether they could be. They can't be, where together they may not join those that are there, or
/// where there are too many.
fn publish_some(
    alloc: Global,
    published: &mut Published,
    news: Vec<New<'_>>,
) -> Result<bool, AllocError>
    requires { AreTexts news.items }
    ensures { published.new.marks ≡ published.old.marks }
{
    if news.len() > MOST_TOGETHER {
        return Ok(false);
    }
    match published.join(alloc, None, news) {
        Ok(()) => Ok(true),
        Err(Refusal::Phase(_)) => Ok(false),
        Err(Refusal::Memory) => Err(AllocError),
    }
}

/// Publishes a module, and says whether it could be.
fn publish_one(alloc: Global, published: &mut Published, new: New<'_>) -> Result<bool, AllocError>
    requires { HasItsTexts new }
    ensures { published.new.marks ≡ published.old.marks }
{
    let news = vec![in alloc; new]?;
    publish_some(alloc, published, news)
}

/// Publishes a stub of this name, and says whether it could be.
fn publish_stub(
    alloc: Global,
    published: &mut Published,
    address: u128,
    name: &[u8],
) -> Result<bool, AllocError>
    ensures { published.new.marks ≡ published.old.marks }
{
    let stub = Stub::new(alloc, address, name)?;
    let offer = stub.offer();
    match verified(alloc, &offer) {
        Ok(new) => publish_one(alloc, published, new),
        Err(Refusal::Phase(_)) => Ok(false),
        Err(Refusal::Memory) => Err(AllocError),
    }
}

/// Publishes the next offered module, or a stub of its name where not all that it names is there; and says whether it could
/// be.
///
/// # Errors
///
/// The first phase that the module fails; `Memory`, where a growth was refused.
fn publish_next(
    alloc: Global,
    published: &mut Published,
    offer: &Offered<'_>,
    stubs: &mut Stubs,
) -> Result<bool, Refusal>
    ensures passed { OnOk result (IsPassed (offer_of offer.now)) }
    ensures refused { IfErr result (IsRefusedBy (FailsAt (offer_of offer.now))) }
    ensures marks { published.new.marks ≡ published.old.marks }
{
    let new = verified(alloc, offer)?;
    let stub = stubs.needed_for(&published.store, new.module.module());
    stubs.put(stub.is_some())?;
    let done = match stub {
        None => publish_one(alloc, published, new)?,
        Some((address, name)) => {
            drop(new);
            publish_stub(alloc, published, address, name)?
        }
    };
    Ok(done)
}

/// Publishes these offered modules in their order, each itself or as a stub, and says whether they could be.
///
/// # Errors
///
/// The first phase that a module fails, of the first module that fails one; `Memory` if an allocation failed.
fn publish_each(
    alloc: Global,
    published: &mut Published,
    offers: &[Offered<'_>],
    stubs: &mut Stubs,
) -> Result<bool, Refusal>
    ensures refused { IfErr result (IsRefusedBy (FailsAmong (offers_of offers.now))) }
    ensures marks { published.new.marks ≡ published.old.marks }
{
    'each: for offer in offers {
        if !publish_next(alloc, published, offer, stubs)? {
            return Ok(false);
        }
    }
    Ok(true)
}

/// Publishes the module of each stub in its place, and says whether they could be.
fn replace_stubs(
    alloc: Global,
    published: &mut Published,
    offers: &[Offered<'_>],
    stubs: &Stubs,
) -> Result<bool, AllocError>
    requires { length offers.now ≤ most_modules }
    ensures { published.new.marks ≡ published.old.marks }
{
    let order = match order(alloc, &published.store, stubs, offers) {
        Ok(order) => order,
        Err(Refusal::Phase(_)) => return Ok(false),
        Err(Refusal::Memory) => return Err(AllocError),
    };
    let mut done: usize = 0;
    'each: for _ in 0..order.len() {
        if done >= order.len() {
            return Ok(true);
        }
        let news = match next_news(alloc, offers, &order[done..]) {
            Ok(news) => news,
            Err(Refusal::Phase(_)) => return Ok(false),
            Err(Refusal::Memory) => return Err(AllocError),
        };
        done = done.saturating_add(news.len().max(1));
        if !publish_some(alloc, published, news)? {
            return Ok(false);
        }
    }
    Ok(true)
}

/// These offered modules, which join one by one; none, where they can't.
///
/// # Errors
///
/// `Module`, where one of them fails one of phases 2 to 12; `Memory`, where a growth was refused.
pub fn of_offers_singly(
    alloc: Global,
    offers: &[Offered<'_>],
) -> Result<Option<Published>, LoadError>
    requires { length offers.now ≤ most_modules }
    ensures marks { IfOk result (λ found. IfSome found (λ p. p.marks ≡ [])) }
    ensures passed { IfOk result (λ found. IfSome found (λ p. AllPass (offers_of offers.now) p.modules)) }
    ensures refused { IfErr result (AreNotJoined (offers_of offers.now)) }
{
    let mut published = Published::new(alloc);
    let mut stubs = Stubs::new(alloc);
    let all = match publish_each(alloc, &mut published, offers, &mut stubs) {
        Ok(all) => all,
        Err(refusal) => return Err(because(refusal, LoadError::Module)),
    };
    if !all || !replace_stubs(alloc, &mut published, offers, &stubs)? {
        return Ok(None);
    }
    if are_offered(&published.store, offers) {
        Ok(Some(published))
    } else {
        Ok(None)
    }
}
