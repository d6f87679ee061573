// A receiver over many steps in each of which others are heard: it looks for the delimiter, then collects; the bits are
// stored in the area.

#![tactic(auto)]

ghost use Rattle.std.specs.Prelude.{false, is_some, unwrap_or, ◌≡◌, ◌+◌, ◌-◌, ◌*◌, ◌%◌, ◌<◌, ◌≤◌, length, IfSome, MatchOption};
ghost use Rattle.station_spec.specs.Receive.{row_in, bits_in, hear, addressed, row_limit};
ghost use Rattle.area.specs.Area.{address_at, buffer_at, symbol_at};
ghost use Rattle.fast_receive.specs.Received.{taken, step_taken, heard_all, spoils, line_from, bits_from, AllHeard};
ghost use Rattle.fast_receive.specs.Received.{copied, may_report};
ghost use Rattle.fast_receive.specs.Strides.{row_before, Passes, CleanBits};
ghost use Rattle.fast_receive.specs.Zeros.{low_kept, blanks, zeroed_up_to};
ghost use Rattle.area.specs.Offsets.{area_size};
ghost use Rattle.frame_build.specs.Limits.{buffer_octets};
ghost use Rattle.sheet_layout.specs.Limits.{max_stations};

use station_state::Receiver;

// So many bits collected, and the buffer has room for eight more.
const LAST_OCTET: u32 = 12168;

// The row after a spoiled symbol: no symbol stands in it.
const NO_ROW: u32 = 1;

// A receiver after so many steps.
#[derive(Clone, Copy)]
struct Part {
    receiver: Receiver,
    steps: u32,
}

// ---- one step after the other

// A step in which others are heard: a clean symbol is its bit.
#[tactic(auto, using(crate::specs::CodeLaws::one_kept, crate::specs::CodeLaws::one_heard))]
fn hear_one(area: &mut [u8], j: usize, r: Receiver, symbol: Option<bool>, e: bool) -> Receiver
    requires { (j < max_stations) × (area_size ≤ length area.old) × (row_in r < row_limit) × (bits_in r < 4294967295) }
    ensures heard { taken result area.new
        ≡ step_taken j (hear r (is_some symbol) (unwrap_or symbol false) e) area.old }
    ensures range { (row_in result < row_limit) × (bits_in result ≤ bits_in r + 1) }
{
    let o = station_receive::hear(r, symbol, e);
    bus_turn::keep_bit(area, j, o.stored);
    o.receiver
}

// ---- the symbols of a line, eight at a time where that can be

// The code of what reaches station j in step u, as a wider number.
fn code_at(area: &[u8], j: usize, u: usize) -> u32
    requires { (j < max_stations) × (area_size ≤ length area.now) }
    ensures value { result ≡ symbol_at area.now j u }
    ensures small { result < 256 }
{
    octets::wide(area_line::read_symbol(area, j, u))
}

// Four clean bits of the line of station j from step u on, the first lowest, if all of the symbols are clean. Reckoned
// and not chosen one by one.
#[tactic(auto, using(crate::specs::Strides::four_clean))]
fn four_bits(area: &[u8], j: usize, u: usize) -> Option<u32>
    requires { (j < max_stations) × (area_size ≤ length area.now) × (u + 4 ≤ 4294967296)
        × AllHeard (line_from area.now j u) 4 }
    ensures { IfSome result (λ v. (v < 16) × CleanBits area.now j u 4 v) }
{
    let a = code_at(area, j, u);
    let b = code_at(area, j, u + 1);
    let c = code_at(area, j, u + 2);
    let d = code_at(area, j, u + 3);
    let spoiled = (a + 1) / 4 + (b + 1) / 4 + (c + 1) / 4 + (d + 1) / 4;
    if spoiled != 0 {
        return None;
    }
    Some(a / 2 + b / 2 * 2 + c / 2 * 4 + d / 2 * 8)
}

// Eight clean bits of it as an octet.
#[tactic(auto, using(crate::specs::Strides::four_heard, crate::specs::Strides::next_heard, crate::specs::Strides::octet_clean))]
fn line_octet(area: &[u8], j: usize, u: usize) -> Option<u8>
    requires { (j < max_stations) × (area_size ≤ length area.now) × (u + 8 ≤ 4294967296)
        × AllHeard (line_from area.now j u) 8 }
    ensures { IfSome result (CleanBits area.now j u 8) }
{
    let low = four_bits(area, j, u)?;
    let high = four_bits(area, j, u + 4)?;
    Some((low + 16 * high) as u8)
}

// Station j hears eight clean bits of its line from step u on, of m, where it collects and an octet begins.
#[tactic(auto, using(crate::specs::Strides::eight_heard, crate::specs::CodeLaws::collecting_most))]
fn hear_eight(area: &mut [u8], j: usize, u: usize, e: bool, r: Receiver, m: u32) -> Option<Receiver>
    requires { (j < max_stations) × (area_size ≤ length area.old) × (u + m < 4294967296)
        × AllHeard (line_from area.old j u) m }
    ensures heard { MatchOption result (area.new ≡ area.old)
        (λ q. taken q area.new ≡ heard_all j e (line_from area.old j u) 8 (taken r area.old)) }
    ensures range { IfSome result (λ q. (8 ≤ m) × (row_in q < row_limit) × (bits_in q ≤ bits_in r + 8)) }
{
    let Receiver::Collecting { bits, spoiled, own } = r else {
        return None;
    };
    if m < 8 || bits % 8 != 0 || LAST_OCTET < bits {
        return None;
    }
    let v = line_octet(area, j, u)?;
    area_buffers::write_octet(area, j, (bits / 8) as usize, v);
    Some(Receiver::Collecting {
        bits: bits + 8,
        spoiled,
        own: own | e,
    })
}

// Station j hears some of m steps, of which there are some: eight, or one.
fn hear_some(area: &mut [u8], j: usize, u: usize, e: bool, r: Receiver, m: u32) -> Part
    requires { (j < max_stations) × (area_size ≤ length area.old) × (u + m < 4294967296) × (row_in r < row_limit)
        × (bits_in r + m < 4294967296) × AllHeard (line_from area.old j u) m × (0 < m) }
    ensures heard { taken result.receiver area.new
        ≡ heard_all j e (line_from area.old j u) result.steps (taken r area.old) }
    ensures range { (0 < result.steps) × (result.steps ≤ m) × (row_in result.receiver < row_limit)
        × (bits_in result.receiver ≤ bits_in r + result.steps) }
{
    if let Some(receiver) = hear_eight(area, j, u, e, r, m) {
        return Part { receiver, steps: 8 };
    }
    let code = area_line::read_symbol(area, j, u);
    let receiver = hear_one(area, j, r, (code <= 2).then_some(code == 2), e);
    Part { receiver, steps: 1 }
}

// Station j hears for m steps what its line holds from step u on; e: whether it emits in them. A `while`: how far it goes
// at a time is what it finds.
pub fn hear_line(area: &mut [u8], j: usize, u: usize, e: bool, r: Receiver, m: u32) -> Receiver
    requires { (j < max_stations) × (area_size ≤ length area.old) × (u + m < 4294967296) × (row_in r < row_limit)
        × (bits_in r + m < 4294967296) × AllHeard (line_from area.old j u) m }
    ensures heard { taken result area.new
        ≡ heard_all j e (line_from area.old j u) m (taken r area.old) }
    ensures range { (row_in result < row_limit) × (bits_in result ≤ bits_in r + m) }
{
    let mut q = r;
    let mut s: u32 = 0;
    while s < m {
        let t = hear_some(area, j, u + s as usize, e, q, m - s);
        q = t.receiver;
        s += t.steps;
    }
    q
}

// ---- bits of a packet, many at once where that can be

// The row of the eight bits before packet bit a, where they are of the preamble.
fn row_before(a: u32) -> u32
    ensures { result ≡ row_before a }
{
    341 + 85 * (a % 2)
}

// A receiver that seeks, behind eight bits of a preamble, passes those that are left of it, of m, from packet bit a on:
// only the last eight matter.
#[tactic(auto, using(crate::specs::Strides::pass_some))]
fn pass_preamble(r: Receiver, a: u32, e: bool, m: u32) -> Option<Part>
    requires { (a + m < 4294967296) × (0 < m) }
    ensures passed { IfSome result (λ p. Passes a e r p.receiver p.steps) }
    ensures range { IfSome result (λ p. (0 < p.steps) × (p.steps ≤ m) × (row_in p.receiver < row_limit)
        × (bits_in p.receiver ≤ 0)) }
{
    let Receiver::Seeking { row, spoiled, own } = r else {
        return None;
    };
    if row != row_before(a) || 62 < a {
        return None;
    }
    let steps = m.min(63 - a);
    Some(Part {
        receiver: Receiver::Seeking {
            row: row_before(a + steps),
            spoiled,
            own: own | e,
        },
        steps,
    })
}

// Octets q, q + 1, .. of what station j collected are n octets of the frame, from octet p on.
fn copy_octets(area: &mut [u8], j: usize, frame: &[u8], q: usize, p: usize, n: usize)
    requires { (j < max_stations) × (area_size ≤ length area.old) × (q + n ≤ buffer_octets)
        × (p + n ≤ length frame.now) }
    ensures { area.new ≡ copied j q p n frame.now area.old }
{
    let at = area::BUFFERS_AT + area::FRAME_ROOM * j + q;
    area[at..at + n].copy_from_slice(&frame[p..p + n]);
}

// The least of the octets that m bits have, that the frame has from octet p on, and that the buffer has from octet q
// on.
fn octets_left(size: usize, q: usize, p: usize, m: u32) -> usize
    ensures { (8 * result ≤ m) × (result ≤ size - p) × (result ≤ buffer_octets - q) }
{
    size.saturating_sub(p)
        .min(frame_build::limits::BUFFER.saturating_sub(q))
        .min((m / 8) as usize)
}

// Station j collects whole octets of a packet from its bit a on, at most m steps, where it collects and an octet begins.
#[tactic(auto, using(crate::specs::CodeLaws::collecting_room, crate::specs::CodeLaws::collecting_most))]
fn hear_octets(
    area: &mut [u8],
    j: usize,
    frame: &[u8],
    a: u32,
    e: bool,
    r: Receiver,
    m: u32,
) -> Option<Part>
    requires { (j < max_stations) × (area_size ≤ length area.old) × (bits_in r + m < 4294967296) }
    ensures heard { MatchOption result (area.new ≡ area.old)
        (λ p. taken p.receiver area.new
        ≡ heard_all j e (bits_from frame.now a) p.steps (taken r area.old)) }
    ensures range { IfSome result (λ p. (0 < p.steps) × (p.steps ≤ m) × (row_in p.receiver < row_limit)
        × (bits_in p.receiver ≤ bits_in r + p.steps)) }
{
    let Receiver::Collecting { bits, spoiled, own } = r else {
        return None;
    };
    if a < 65 || a % 8 != 1 || bits % 8 != 0 {
        return None;
    }
    let p = ((a - 65) / 8) as usize;
    let q = (bits / 8) as usize;
    let n = octets_left(frame.len(), q, p, m);
    if n == 0 {
        return None;
    }
    copy_octets(area, j, frame, q, p, n);
    let steps = (8 * n) as u32;
    Some(Part {
        receiver: Receiver::Collecting {
            bits: bits + steps,
            spoiled,
            own: own | e,
        },
        steps,
    })
}

// Station j hears some of m bits of a packet from its bit a on: whole octets, those left of the preamble, or one.
#[tactic(auto, using(crate::specs::Strides::next_passed))]
fn hear_next(area: &mut [u8], j: usize, frame: &[u8], a: u32, e: bool, r: Receiver, m: u32) -> Part
    requires { (j < max_stations) × (area_size ≤ length area.old) × (a + m < 4294967296) × (row_in r < row_limit)
        × (bits_in r + m < 4294967296) × (0 < m) }
    ensures heard { taken result.receiver area.new
        ≡ heard_all j e (bits_from frame.now a) result.steps (taken r area.old) }
    ensures range { (0 < result.steps) × (result.steps ≤ m) × (row_in result.receiver < row_limit)
        × (bits_in result.receiver ≤ bits_in r + result.steps) }
{
    if let Some(part) = hear_octets(area, j, frame, a, e, r, m) {
        return part;
    }
    if let Some(part) = pass_preamble(r, a, e, m) {
        return part;
    }
    let one = station_symbols::packet_bit(frame, a);
    let receiver = hear_one(area, j, r, Some(one), e);
    Part { receiver, steps: 1 }
}

// Station j hears for m steps the packet that carries a frame, from its bit a on; e: whether it emits in them. A `while`
// for the same reason.
pub fn hear_packet(
    area: &mut [u8],
    j: usize,
    frame: &[u8],
    a: u32,
    e: bool,
    r: Receiver,
    m: u32,
) -> Receiver
    requires { (j < max_stations) × (area_size ≤ length area.old) × (a + m < 4294967296) × (row_in r < row_limit)
        × (bits_in r + m < 4294967296) }
    ensures heard { taken result area.new
        ≡ heard_all j e (bits_from frame.now a) m (taken r area.old) }
    ensures range { (row_in result < row_limit) × (bits_in result ≤ bits_in r + m) }
{
    let mut q = r;
    let mut s: u32 = 0;
    while s < m {
        let t = hear_next(area, j, frame, a + s, e, q, m - s);
        q = t.receiver;
        s += t.steps;
    }
    q
}

// ---- spoiled symbols

// The low p bits of octet q of what station j collected stay, the others are 0.
#[tactic(auto, using(crate::specs::CodeLaws::buffer_long))]
fn keep_low(area: &mut [u8], j: usize, q: usize, p: usize)
    requires { (j < max_stations) × (area_size ≤ length area.old) × (q < buffer_octets) × (p < 8) }
    ensures { area.new ≡ low_kept j q p area.old }
{
    let b = area_buffers::buffer(area, j);
    let old = octets::wide(b[q]);
    let unit = area_buffers::power(p);
    let low = area_buffers::low_bits(old, p, unit);
    area_buffers::write_octet(area, j, q, low as u8);
}

// The n octets behind octet q of what station j collected become 0.
fn blank_octets(area: &mut [u8], j: usize, q: usize, n: usize)
    requires { (j < max_stations) × (area_size ≤ length area.old) × (q + n < buffer_octets) }
    ensures { area.new ≡ blanks j q n area.old }
{
    let at = area::BUFFERS_AT + area::FRAME_ROOM * j + (q + 1);
    area[at..at + n].fill(0);
}

// Collected bits c, c + 1, .. of station j are m zeros; those past what the buffer holds are not kept.
#[tactic(auto, using(crate::specs::CodeLaws::zeros_past, crate::specs::CodeLaws::zeros_in))]
fn store_zeros(area: &mut [u8], j: usize, c: usize, m: usize)
    requires { (j < max_stations) × (area_size ≤ length area.old) × (0 < m) }
    ensures { area.new ≡ zeroed_up_to j c m area.old }
{
    if frame_build::limits::BUFFER_BITS <= c {
        return;
    }
    let n = bus_quick::capped(m, frame_build::limits::BUFFER_BITS - c);
    keep_low(area, j, c / 8, c % 8);
    blank_octets(area, j, c / 8, (c + n - 1) / 8 - c / 8);
}

// Station j hears m symbols that are spoiled; e: whether it emits in these steps.
pub fn hear_spoiled(area: &mut [u8], j: usize, e: bool, r: Receiver, m: u32) -> Receiver
    requires { (j < max_stations) × (area_size ≤ length area.old) × (row_in r < row_limit)
        × (bits_in r + m < 4294967296) }
    ensures heard { taken result area.new ≡ heard_all j e spoils m (taken r area.old) }
    ensures range { (row_in result < row_limit) × (bits_in result ≤ bits_in r + m) }
{
    if m == 0 {
        return r;
    }
    match r {
        Receiver::Listening | Receiver::Readable(_) => Receiver::Seeking {
            row: NO_ROW,
            spoiled: true,
            own: e,
        },
        Receiver::Seeking { own, .. } => Receiver::Seeking {
            row: NO_ROW,
            spoiled: true,
            own: own | e,
        },
        Receiver::Collecting { bits, own, .. } => {
            store_zeros(area, j, bits as usize, m as usize);
            Receiver::Collecting {
                bits: bits + m,
                spoiled: true,
                own: own | e,
            }
        }
    }
}

// ---- the end of a reception

// Whether the destination that station j collected is its own address or broadcast.
#[tactic(auto, using(crate::specs::EndLaws::six_long, crate::specs::EndLaws::destination_is))]
fn has_destination(area: &[u8], j: usize) -> bool
    requires { (j < max_stations) × (area_size ≤ length area.now) }
    ensures { result ≡ addressed (address_at area.now j) (buffer_at area.now j) }
{
    let address = area::read_address(area, j);
    let b = area_buffers::buffer(area, j);
    station_end::is_addressed(address, b)
}

// Whether the reception of station j, in which others are heard for at most `more` steps from now on, could be opened
// when it ends.
#[tactic(auto, unfolding(crate::specs::Received::may_report))]
pub fn may_report(area: &[u8], j: usize, r: Receiver, more: u32) -> bool
    requires { (j < max_stations) × (area_size ≤ length area.now) × (bits_in r + more < 4294967296) }
    ensures { result ≡ may_report (address_at area.now j) (buffer_at area.now j) more r }
{
    match r {
        Receiver::Listening | Receiver::Readable(_) => frame_build::limits::SHORTEST_FRAME <= more,
        Receiver::Seeking { own, .. } => frame_build::limits::SHORTEST_FRAME <= more && !own,
        Receiver::Collecting { bits, own, .. } => {
            frame_build::limits::SHORTEST_FRAME <= bits + more
                && !own
                && (bits < 48 || has_destination(area, j))
        }
    }
}
