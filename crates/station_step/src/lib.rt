// The bit time of one station by value. Nothing here knows of a work area or of another station.

#![tactic(auto)]

ghost use Rattle.std.specs.Prelude.{◌≡◌, ◌+◌, ◌<◌, length};
ghost use Rattle.station_spec.specs.Step.{Roomy, tries_after, draw_after, deferred_after, stepped};
ghost use Rattle.station_spec.specs.StepLaws.{finished};

use sheet_layout::Figures;
use station_spec::{Deferred, Received, Stepped, Transmitted};
use station_state::Station;
use station_symbols::{Emission, Heard};

// The attempts of a frame, with one that starts in this step.
#[tactic(auto, unfolding(station_spec::specs::Step::tries_after))]
fn tries_after(attempts: u32, start: bool) -> u32
    requires { attempts < 4294967295 }
    ensures { result ≡ tries_after attempts start }
{
    if start { attempts + 1 } else { attempts }
}

// The place of the next draw: in turn, then from the first again.
#[tactic(auto, unfolding(station_spec::specs::Step::draw_after))]
fn draw_after(place: u32, draws: u32, drew: bool) -> u32
    requires { place < 4294967295 }
    ensures { result ≡ draw_after place draws drew }
{
    if drew {
        if place + 1 == draws {
            return 0;
        }
        return place + 1;
    }
    place
}

// Whether the frame did not start in its first step: it waits, was never tried, and does not start now.
#[tactic(auto, unfolding(station_spec::specs::Step::deferred_after))]
fn deferred_after(deferred: bool, waits: bool, attempts: u32, start: bool) -> bool
    ensures { result ≡ deferred_after deferred waits attempts start }
{
    deferred | (waits & ((attempts == 0) & !start))
}

// The next state and what the step leads to, from its three parts.
#[tactic(auto, unfolding(station_spec::specs::StepLaws::finished))]
fn finish(
    s: Station,
    draws: u32,
    d: Deferred,
    o: Transmitted,
    q: Received,
    tries: u32,
    emits: bool,
) -> Stepped
    requires { s.draw < 4294967295 }
    ensures { result ≡ finished s draws d o q tries emits }
{
    let waits = station_transmit::is_waiting(s.transmitter);
    Stepped {
        station: Station {
            deference: d.phase,
            transmitter: o.phase,
            receiver: q.receiver,
            attempts: tries,
            draw: draw_after(s.draw, draws, o.drew),
            deferred: deferred_after(s.deferred, waits, s.attempts, d.start),
            emitted: emits,
            ..s
        },
        emission: o.emission,
        start: d.start,
        sent: o.event,
        got: q.event,
        stored: q.stored,
    }
}

// One step of a station that hears this, has this draw next of so many, and collected these octets.
pub fn step(f: Figures, s: Station, draws: u32, draw: u32, buffer: &[u8], h: Heard) -> Stepped
    requires { Roomy f s (length buffer.now) }
    ensures { result ≡ stepped f s draws draw buffer.now h }
{
    let hears = station_symbols::hears_any(h);
    let waits = station_transmit::is_waiting(s.transmitter);
    let d = station_defer::defer(f, s.deference, hears, s.emitted, waits);
    let tries = tries_after(s.attempts, d.start);
    let frame = station_transmit::octets_held(s.transmitter, s.frame);
    let o = station_send::transmit(f, s.transmitter, frame, tries, draw, d.start, hears);
    let emits = station_symbols::is_emission(o.emission);
    let q = station_end::receive(s.address, buffer, s.receiver, h, emits);
    finish(s, draws, d, o, q, tries, emits)
}
