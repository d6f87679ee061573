// Bookmarks in a run: a work area marked under a name in a lent store, put back from it, and a mark dropped. A store
// holds four marks, each 57,353 octets: one that is 1 where the mark stands, the name, the work area.

#![tactic(auto)]

ghost use Rattle.std.specs.Prelude.{◌≡◌, ◌<◌, ◌≤◌, length, IfSome};
ghost use Rattle.std.proofs.lemmas.List.Edits.{sets};
ghost use Rattle.octets.specs.Base.{done_answer, outcome};
ghost use Rattle.octets.specs.Equal.{equal};
ghost use Rattle.area.specs.Offsets.{area_size};
ghost use Rattle.area_check.specs.Valid.{area_wrong};
ghost use Rattle.marks.specs.Marks.{mark_count, store_size, stands, name_at, copy_at, named, found, vacant, free};
ghost use Rattle.marks.specs.Marks.{place_number, place_for, with_head, with_mark, marked, returned, dropped};

use octets::Refusal;

// The marks of a store, the octets of one, and of the store.
pub const COUNT: usize = 4;

pub const MARK: usize = 57353;

pub const STORE: usize = 229412;

// Where a mark's name and its area begin.
const NAME_AT: usize = 1;

const COPY_AT: usize = 9;

// Whether a mark stands at place k.
#[tactic(auto, unfolding(crate::specs::Marks::stands))]
fn is_standing(store: &[u8], k: usize) -> bool
    requires { (k < mark_count) × (store_size ≤ length store.now) }
    ensures { result ≡ stands store.now k }
{
    store[MARK * k] == 1
}

// Whether the name at place k is this one.
#[tactic(auto, unfolding(crate::specs::Marks::name_at, octets::specs::Store::part))]
fn has_name(store: &[u8], k: usize, name: [u8; 8]) -> bool
    requires { (k < mark_count) × (store_size ≤ length store.now) }
    ensures { result ≡ equal (name_at store.now k) name }
{
    let at = MARK * k + NAME_AT;
    octets_copies::same(&store[at..at + 8], &name)
}

#[tactic(auto, unfolding(crate::specs::Marks::named))]
fn is_named(store: &[u8], k: usize, name: [u8; 8]) -> bool
    requires { (k < mark_count) × (store_size ≤ length store.now) }
    ensures { result ≡ named store.now name k }
{
    is_standing(store, k) & has_name(store, k, name)
}

// The first place with a mark of that name.
#[tactic(auto, using(crate::proofs::MarkLaws::finding))]
fn find(store: &[u8], name: [u8; 8]) -> Option<usize>
    requires { store_size ≤ length store.now }
    ensures value { place_number result ≡ found store.now name }
    ensures small { IfSome result (λ k. k < mark_count) }
{
    for k in 0..COUNT {
        if is_named(store, k, name) {
            return Some(k);
        }
    }
    None
}

// The first place where no mark stands.
#[tactic(auto, using(crate::proofs::MarkLaws::freeing))]
fn find_free(store: &[u8]) -> Option<usize>
    requires { store_size ≤ length store.now }
    ensures value { place_number result ≡ free store.now }
    ensures small { IfSome result (λ k. k < mark_count) }
{
    for k in 0..COUNT {
        if !is_standing(store, k) {
            return Some(k);
        }
    }
    None
}

// Where a mark of that name goes: over the one that stands, or to a free place.
fn place_for(store: &[u8], name: [u8; 8]) -> Option<usize>
    requires { store_size ≤ length store.now }
    ensures value { place_number result ≡ place_for store.now name }
    ensures small { IfSome result (λ k. k < mark_count) }
{
    find(store, name).or_else(|| find_free(store))
}

// The octet and the name of a mark written at place k.
#[tactic(auto, unfolding(crate::specs::Marks::with_head))]
fn write_head(store: &mut [u8], k: usize, name: [u8; 8])
    requires { (k < mark_count) × (store_size ≤ length store.old) }
    ensures { store.new ≡ with_head store.old k name }
{
    octets_copies::store(store, MARK * k + NAME_AT, &name);
    store[MARK * k] = 1;
}

// A mark written at place k.
fn write_mark(store: &mut [u8], k: usize, name: [u8; 8], area: &[u8])
    requires { (k < mark_count) × (store_size ≤ length store.old) × (area_size ≤ length area.now) }
    ensures { store.new ≡ with_mark store.old k name area.now }
{
    write_head(store, k, name);
    octets_copies::store(store, MARK * k + COPY_AT, &area[0..area::AREA]);
}

// Whether check 2 refuses the area at place k.
fn is_wrong(store: &[u8], k: usize) -> bool
    requires { (k < mark_count) × (store_size ≤ length store.now) }
    ensures { result ≡ area_wrong (copy_at store.now k) }
{
    let at = MARK * k + COPY_AT;
    area_check::check(&store[at..at + area::AREA]) == Err(Refusal::AreaWrong)
}

// Marks a work area under a name. Refusals 1, 2, 15, 18.
#[tactic(auto, using(crate::proofs::MarkLaws::marking), unfolding(crate::specs::Marks::marked))]
pub fn mark(area: &[u8], store: &mut [u8], name: [u8; 8]) -> Result<(), Refusal>
    ensures { outcome (done_answer result) store.new
        ≡ marked area.now store.old name }
{
    area_check::check(area)?;
    if store.len() < STORE {
        return Err(Refusal::OutputShort);
    }
    let k = place_for(store, name).ok_or(Refusal::MarksFull)?;
    write_mark(store, k, name, area);
    Ok(())
}

// The area at place k put back.
#[tactic(auto, using(crate::proofs::MarkLaws::back_is))]
fn put_back(area: &mut [u8], store: &[u8], k: usize)
    requires { (k < mark_count) × (store_size ≤ length store.now) × (area_size ≤ length area.old) }
    ensures { area.new ≡ sets area.old 0 (copy_at store.now k) }
{
    let at = MARK * k + COPY_AT;
    octets_copies::store(area, 0, &store[at..at + area::AREA]);
}

// Puts back the work area that is marked under a name. Refusals 1, 15, 17, 2.
#[tactic(auto, using(area_check::specs::AreaCheckLaws::refusals), unfolding(crate::specs::Marks::returned))]
pub fn go_back(area: &mut [u8], store: &[u8], name: [u8; 8]) -> Result<(), Refusal>
    ensures { outcome (done_answer result) area.new
        ≡ returned area.old store.now name }
{
    if area.len() < area::AREA {
        return Err(Refusal::AreaShort);
    }
    if store.len() < STORE {
        return Err(Refusal::OutputShort);
    }
    let k = find(store, name).ok_or(Refusal::NoSuchMark)?;
    if is_wrong(store, k) {
        return Err(Refusal::AreaWrong);
    }
    put_back(area, store, k);
    Ok(())
}

// Drops the mark of a name. Refusals 15, 17.
#[tactic(auto, using(area_check::specs::AreaCheckLaws::refusals), unfolding(crate::specs::Marks::dropped))]
pub fn drop_mark(store: &mut [u8], name: [u8; 8]) -> Result<(), Refusal>
    ensures { outcome (done_answer result) store.new ≡ dropped store.old name }
{
    if store.len() < STORE {
        return Err(Refusal::OutputShort);
    }
    let k = find(store, name).ok_or(Refusal::NoSuchMark)?;
    store[MARK * k] = 0;
    Ok(())
}
