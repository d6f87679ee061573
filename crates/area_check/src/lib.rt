// Checks 1 and 2: whether a work area is long enough, and whether it holds what no call would leave.

#![tactic(auto)]

ghost use Rattle.std.specs.Prelude.{◌≡◌, ◌+◌, ◌<◌, ◌≤◌, length, ltb};
ghost use Rattle.octets.specs.Base.{some, refusal_in};
ghost use Rattle.area.specs.Area.{figures_at, record_at};
ghost use Rattle.area_check.specs.Valid.{deference_wrong, attempts_wrong, number_wrong, transmitter_wrong};
ghost use Rattle.area_check.specs.Valid.{last_phase};
ghost use Rattle.area_check.specs.Valid.{receiver_wrong, record_wrong, symbol_wrong, station_wrong, area_wrong};
ghost use Rattle.area_check.specs.Valid.{held_wrong, readable_wrong, area_refusal};
ghost use Rattle.frame_build.specs.Limits.{max_frame};
ghost use Rattle.frame_open.specs.Open.{value_of};
ghost use Rattle.area.specs.Offsets.{area_size, ring};
ghost use Rattle.sheet_layout.specs.Limits.{max_stations};

use octets::Refusal;
use sheet_layout::Figures;

#[tactic(auto, using(crate::specs::AreaCheckLaws::sizes), unfolding(crate::specs::Valid::deference_wrong))]
fn deference_wrong(area: &[u8], i: usize, f: Figures) -> bool
    requires { (i < max_stations) × (area_size ≤ length area.now) × (f.gap1 + f.gap2 < 65536) }
    ensures { result ≡ deference_wrong f (record_at area.now i) }
{
    let code = area::read_word(area, i, area_record::words::DEFERENCE);
    if 2 < code {
        return true;
    }
    if code == 0 {
        return false;
    }
    if 1 < area::read_word(area, i, area_record::words::STRETCH) {
        return true;
    }
    if code == 1 {
        return false;
    }
    octets::out_of(
        area::read_word(area, i, area_record::words::GAP),
        1,
        f.gap1 + f.gap2,
    )
}

#[tactic(auto, using(std::proofs::lemmas::Bool::Decides::nat_tests), unfolding(crate::specs::Valid::attempts_wrong))]
fn attempts_wrong(limit: u32, code: u32, n: u32) -> bool
    ensures { result ≡ attempts_wrong limit code n }
{
    if code == 0 {
        return limit < n;
    }
    if code <= 2 {
        return limit <= n;
    }
    octets::out_of(n, 1, limit)
}

#[tactic(auto, using(std::proofs::lemmas::Bool::Decides::nat_tests), unfolding(crate::specs::Valid::number_wrong))]
fn number_wrong(f: Figures, code: u32, n: u32, frame: u32) -> bool
    requires { (f.slot < 65536) × (frame < 65536) }
    ensures { result ≡ number_wrong f code n frame }
{
    if code == 1 {
        return false;
    }
    if code == 2 {
        return octets::out_of(n, 1, f.slot * 1023);
    }
    if code <= 4 {
        return octets::out_of(n, 1, 64 + 8 * frame);
    }
    octets::out_of(n, 1, f.jam)
}

// The last code of a transmitter's phase.
#[tactic(auto, using(std::proofs::lemmas::Bool::Decides::nat_tests), unfolding(crate::specs::Valid::last_phase))]
fn last_phase(f: Figures) -> u32
    ensures { result ≡ last_phase f }
{
    if f.ends == 0 { 5 } else { 6 }
}

#[tactic(auto, using(crate::specs::AreaCheckLaws::sizes), unfolding(crate::specs::Valid::transmitter_wrong))]
fn transmitter_wrong(area: &[u8], i: usize, f: Figures) -> bool
    requires { (i < max_stations) × (area_size ≤ length area.now) × (f.slot < 65536) }
    ensures { result ≡ transmitter_wrong f (record_at area.now i) }
{
    let code = area::read_word(area, i, area_record::words::PHASE);
    if last_phase(f) < code {
        return true;
    }
    if attempts_wrong(
        f.limit,
        code,
        area::read_word(area, i, area_record::words::ATTEMPTS),
    ) {
        return true;
    }
    if code == 0 {
        return false;
    }
    let frame = area::read_word(area, i, area_record::words::FRAME);
    if octets::out_of(frame, 64, frame_build::limits::LARGEST_FRAME) {
        return true;
    }
    if 1 < area::read_word(area, i, area_record::words::DEFERRED) {
        return true;
    }
    number_wrong(
        f,
        code,
        area::read_word(area, i, area_record::words::PHASE_NUMBER),
        frame,
    )
}

#[tactic(auto, using(std::proofs::lemmas::Bool::Decides::nat_tests), unfolding(crate::specs::Valid::receiver_wrong))]
fn receiver_wrong(area: &[u8], i: usize, clock: u32) -> bool
    requires { (i < max_stations) × (area_size ≤ length area.now) }
    ensures { result ≡ receiver_wrong clock (record_at area.now i) }
{
    let code = area::read_word(area, i, area_record::words::RECEIVER);
    if 3 < code {
        return true;
    }
    if code == 0 {
        return false;
    }
    if code == 1 {
        return octets::out_of(
            area::read_word(area, i, area_record::words::RECEIVER_NUMBER),
            64,
            frame_build::limits::LARGEST_FRAME,
        );
    }
    if 1 < area::read_word(area, i, area_record::words::SPOILED) {
        return true;
    }
    if 1 < area::read_word(area, i, area_record::words::RECEPTION) {
        return true;
    }
    if code == 2 {
        return octets::out_of(
            area::read_word(area, i, area_record::words::RECEIVER_NUMBER),
            1,
            511,
        );
    }
    clock < area::read_word(area, i, area_record::words::RECEIVER_NUMBER)
}

// Whether the record of station i holds what no call would leave, on a layout with these figures, so many draws and
// this clock. A word is read where it is looked at.
#[tactic(auto, using(std::proofs::lemmas::Bool::Decides::nat_tests), unfolding(crate::specs::Valid::record_wrong))]
fn record_wrong(area: &[u8], i: usize, f: Figures, depth: u32, clock: u32) -> bool
    requires { (i < max_stations) × (area_size ≤ length area.now) × (f.gap1 + f.gap2 < 65536)
        × (f.slot < 65536) }
    ensures { result ≡ record_wrong f depth clock (record_at area.now i) }
{
    if deference_wrong(area, i, f) {
        return true;
    }
    if transmitter_wrong(area, i, f) {
        return true;
    }
    if receiver_wrong(area, i, clock) {
        return true;
    }
    if depth <= area::read_word(area, i, area_record::words::DRAW) {
        return true;
    }
    1 < area::read_word(area, i, area_record::words::EMITTED)
}

// Whether n octets are more than the length/type value in these first octets of a frame allows.
#[tactic(auto, using(std::proofs::lemmas::Bool::Decides::nat_tests), unfolding(frame_open::specs::Open::value_of))]
fn overlong(frame: &[u8], n: u32) -> bool
    requires { 14 ≤ length frame.now }
    ensures { result ≡ ltb (max_frame (value_of frame.now)) n }
{
    let value = octets_words::get16(frame, 12) as usize;
    frame_build::limits::max_frame(value) < n as usize
}

#[tactic(auto, using(crate::specs::AreaCheckLaws::sizes), unfolding(crate::specs::Valid::held_wrong))]
fn held_wrong(area: &[u8], i: usize) -> bool
    requires { (i < max_stations) × (area_size ≤ length area.now) }
    ensures { result ≡ held_wrong area.now i }
{
    if area::read_word(area, i, area_record::words::PHASE) == 0 {
        return false;
    }
    let n = area::read_word(area, i, area_record::words::FRAME);
    overlong(
        area_buffers::frame(area, i, frame_build::limits::MIN_FRAME),
        n,
    )
}

#[tactic(auto, using(crate::specs::AreaCheckLaws::sizes), unfolding(crate::specs::Valid::readable_wrong))]
fn readable_wrong(area: &[u8], i: usize) -> bool
    requires { (i < max_stations) × (area_size ≤ length area.now) }
    ensures { result ≡ readable_wrong area.now i }
{
    if area::read_word(area, i, area_record::words::RECEIVER) != 1 {
        return false;
    }
    let n = area::read_word(area, i, area_record::words::RECEIVER_NUMBER);
    overlong(area_buffers::buffer(area, i), n)
}

// Whether a code in the delay line of station i stands for nothing: the largest one tells, found without a branch.
#[tactic(auto, using(crate::specs::AreaCheckLaws::lines))]
fn line_wrong(area: &[u8], i: usize) -> bool
    requires { (i < max_stations) × (area_size ≤ length area.now) }
    ensures { result ≡ some (symbol_wrong area.now i) ring }
{
    let mut top: u8 = 0;
    for u in 0..area::RING {
        top = top.max(area_line::read_symbol(area, i, u));
    }
    area::SPOILED < top
}

#[tactic(auto, unfolding(crate::specs::Valid::station_wrong))]
fn station_wrong(area: &[u8], i: usize) -> bool
    requires i_lt_max_stations { (i < max_stations) × (area_size ≤ length area.now) }
    requires area_bound { ((figures_at area.now).gap1 + (figures_at area.now).gap2 < 65536)
        × ((figures_at area.now).slot < 65536) }
    ensures { result ≡ station_wrong area.now i }
{
    let f = area::read_figures(area);
    let depth = area::read_depth(area);
    let clock = area::read_clock(area);
    record_wrong(area, i, f, depth, clock)
        | held_wrong(area, i)
        | readable_wrong(area, i)
        | line_wrong(area, i)
}

#[tactic(auto, using(crate::specs::AreaCheckLaws::searches))]
fn stations_wrong(area: &[u8], n: usize) -> bool
    requires n_le_max_stations { (n ≤ max_stations) × (area_size ≤ length area.now) }
    requires area_bound { ((figures_at area.now).gap1 + (figures_at area.now).gap2 < 65536)
        × ((figures_at area.now).slot < 65536) }
    ensures { result ≡ some (station_wrong area.now) n }
{
    for i in 0..n {
        if station_wrong(area, i) {
            return true;
        }
    }
    false
}

fn area_wrong(area: &[u8]) -> bool
    requires { area_size ≤ length area.now }
    ensures { result ≡ area_wrong area.now }
{
    let y = area::read_layout(area);
    if sheet_check::check(y).is_err() {
        return true;
    }
    let depth = area::read_depth(area);
    if octets::out_of(depth, 1, 16) {
        return true;
    }
    if sheet_layout::LAST_CLOCK < area::read_clock(area) {
        return true;
    }
    let n = area::read_count(area) as usize;
    stations_wrong(area, n)
}

// Checks 1 and 2 of a work area.
#[tactic(auto, using(std::proofs::lemmas::Bool::Decides::nat_tests), unfolding(crate::specs::Valid::area_refusal))]
pub fn check(area: &[u8]) -> Result<(), Refusal>
    ensures { refusal_in result ≡ area_refusal area.now }
{
    if area.len() < area::AREA {
        return Err(Refusal::AreaShort);
    }
    if area_wrong(area) {
        return Err(Refusal::AreaWrong);
    }
    Ok(())
}
