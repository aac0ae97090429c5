//! The entries by which `bench/` measures the proved libraries from another language. The C
//! interface takes numbers and byte slices only. Each answer is a number made of all that was
//! worked out, so that a compiler can leave none of it out. Stands on `sheet_reader`, `abt_start`,
//! `abt` and `abt_image_mover`; specs/Giving.antt defines the numbers. Start reading at
//! `bench_entry_settle`.
#![tactic(auto)]

ghost use Rattle.std.specs.Prelude.{◌≡◌, ◌/◌, ◌<◌, length};
ghost use Rattle.model_sheet.specs.Sheet.{decode};
ghost use Rattle.model_network.specs.Network.{Started as Started', start_sheet};
ghost use Rattle.abt_record.specs.Abstract.{network_of};
ghost use Rattle.abt_engine.specs.Answers.{ending_of};
ghost use Rattle.abt_engine.specs.Refused.{rejected_number};
ghost use Rattle.abt_agent.specs.Abstract.{counts_of, agent_of};
ghost use Rattle.model_image_forms.specs.Reading.{load};
ghost use Rattle.model_image_forms.specs.Moving.{move};
ghost use Rattle.abt_image_mover.specs.Form.{form_named};
ghost use Rattle.bench_entry.specs.Giving.{word_for, WaitsFor, ending_digit, values_to, settled_for, played_to, Playing, played_for, mixed, count_mixed, counts_mixed, counts_for, agent_mixed, read_for, form_for, length_given, WritesFor, MovesFor};

use abt_agent::{Agent, Traffic};
use abt_engine::{Answer, Ending};
use abt_image_mover::{Form, store_as};
use abt_record::Network;
use abt_shape::places::lines_of;
use support_rejection::Rejection;

/// Decodes a sheet. Returns one word of its ban table, counted from 0, and 0 from word 66 on; or
/// the number that rejects the sheet, 1 to 4. Equals `word_for` of specs/Giving.antt.
#[unsafe(no_mangle)]
pub extern "C" fn bench_entry_decode(sheet: &[u8], word: usize) -> u64
    ensures { result ≡ word_for (decode sheet.now) word }
{
    match sheet_reader::decode(sheet) {
        Ok(problem) => { if word < 66 { problem.bans[word] } else { 0 } }
        Err(rejection) => u64::from(rejection.number()),
    }
}

/// Starts a sheet by a rule. Returns how many messages wait on the channels of one sender, counted
/// from 0: digit j in base 16 for receiver j; 0 from sender 12 on. Where the start is rejected it
/// returns the number instead: 11 for the rule, 1 to 4 for the sheet. `WaitsFor` of
/// specs/Giving.antt says so.
#[unsafe(no_mangle)]
pub extern "C" fn bench_entry_start(rule: u8, sheet: &[u8], sender: usize) -> u64
    ensures { WaitsFor rule sheet.now sender result }
{
    match abt_start::start(rule, sheet) {
        Ok(network) if sender < 12 => lines_of(network.counts[sender], sender as u8 + 1),
        Ok(_) => 0,
        Err(rejection) => u64::from(rejection.number()),
    }
}

// How a run ended, as a number.
#[tactic(auto, unfolding(abt_engine::specs::Answers::ending_of, crate::specs::Giving::ending_digit))]
fn digit_of(ending: Ending) -> u64
    ensures { result ≡ ending_digit (ending_of ending) }
{
    match ending {
        Ending::Unsolvable => 0,
        Ending::Plan => 1,
        Ending::Jammed => 2,
        Ending::Open => 4,
        Ending::Broken => 5,
    }
}

// The values of agents 1 to 12 as digits in base 9, agent 12 lowest.
fn values_of(r: Network) -> u64
    ensures { (result ≡ values_to 12 (network_of r)) × (result < 282429536481) }
{
    let mut values: u64 = 0;
    for agent in r.agents {
        values = values * 9 + u64::from(agent.value % 9);
    }
    values
}

/// Starts a sheet by a rule, and runs it with up to `rounds` rounds. Returns in one number how the
/// run ended (the lowest four bits), its full rounds (the next twenty) and all values; or 8 and the
/// number that rejects the rule or the sheet. Equals `settled_for` of specs/Giving.antt.
#[unsafe(no_mangle)]
pub extern "C" fn bench_entry_settle(rule: u8, sheet: &[u8], rounds: u64) -> u64
    ensures { result ≡ settled_for (start_sheet rule sheet.now) rounds }
{
    match abt_start::start(rule, sheet) {
        Ok(network) => {
            let ran = abt::run(network, rounds);
            (values_of(ran.network) * 1048576 + ran.rounds % 1048576) * 16 + digit_of(ran.ending)
        }
        Err(rejection) => 8 + u64::from(rejection.number()),
    }
}

// ---- numbers mixed into a sum

// A number mixed into a sum.
#[tactic(auto, unfolding(crate::specs::Giving::mixed))]
fn mixed(sum: u64, n: u32) -> u64
    ensures { result ≡ mixed sum n }
{
    (sum % 4294967296) * 31 + u64::from(n)
}

// ---- deliveries

// The number that a rejection is mixed in as, 0 for none.
fn number_of(rejection: Option<Rejection>) -> u32
    ensures { result ≡ rejected_number rejection }
{
    match rejection {
        Some(rejection) => u32::from(rejection.number()),
        None => 0,
    }
}

// Deliveries, each through the public entry: sender and receiver stand in `calls`, two bytes for
// each. Returns the network that they leave, and a sum that each answer is mixed into, the start's
// first. Network and rejection come side by side: with the start's `Result` a delivery copies the
// network twice more, and takes half as long again.
fn play(network: Network, rejection: Option<Rejection>, calls: &[u8]) -> (Network, u64)
    ensures { (s : Started') → network_of network ≡ s.network → rejected_number rejection ≡ s.number → Playing s calls.now (length calls.now / 2) result.0 result.1 }
{
    let mut answer = Answer {
        network,
        rounds: 0,
        rejection,
        ending: Ending::Open,
    };
    let mut sum = u64::from(number_of(rejection));
    for k in 0..calls.len() / 2 {
        answer = abt::deliver(answer.network, calls[2 * k], calls[2 * k + 1]);
        sum = mixed(sum, number_of(answer.rejection));
    }
    (answer.network, sum)
}

/// Starts a sheet by a rule, and makes deliveries: sender and receiver stand in `calls`, two bytes
/// for each. Returns a sum made of the start's number, the number of each answer and, at the end,
/// the values asked of agents 0 to 12. Equals `played_for` of specs/Giving.antt.
#[unsafe(no_mangle)]
pub extern "C" fn bench_entry_deliver(rule: u8, sheet: &[u8], calls: &[u8]) -> u64
    ensures { result ≡ played_for (played_to (length calls.now / 2) (start_sheet rule sheet.now) calls.now) }
{
    let begun = abt_start::start(rule, sheet);
    let (network, mut sum) = play(abt_start::rail_of(begun), begun.err(), calls);
    for i in 0..13 {
        sum = mixed(sum, u32::from(abt_record::value(network, i).unwrap_or(0)));
    }
    sum
}

// ---- counts

// A count mixed into a sum.
#[tactic(auto, unfolding(crate::specs::Giving::count_mixed))]
fn count_mixed(sum: u64, count: u64) -> u64
    ensures { result ≡ count_mixed sum count }
{
    mixed(sum, (count % 4294967296) as u32)
}

// Six counts in one number.
#[tactic(auto, unfolding(abt_agent::specs::Abstract::count_of, abt_agent::specs::Abstract::counts_of, crate::specs::Giving::sort_mixed, crate::specs::Giving::counts_mixed))]
fn all_mixed(sent: Traffic, received: Traffic) -> u64
    ensures { result ≡ counts_mixed (counts_of sent received) }
{
    let news = count_mixed(count_mixed(0, sent.infos), received.infos);
    let refusals = count_mixed(count_mixed(news, sent.backs), received.backs);
    count_mixed(count_mixed(refusals, sent.links), received.links)
}

/// Starts a sheet by a rule, and runs it with up to `rounds` rounds. Returns the six counts of one
/// agent, counted from 0, in one number; 0 from agent 12 on. Equals `counts_for` of
/// specs/Giving.antt.
#[unsafe(no_mangle)]
pub extern "C" fn bench_entry_counts(rule: u8, sheet: &[u8], rounds: u64, agent: usize) -> u64
    ensures { result ≡ counts_for (start_sheet rule sheet.now) rounds agent }
{
    let ran = abt::run(abt_start::rail_of(abt_start::start(rule, sheet)), rounds);
    if agent < 12 {
        let a = ran.network.agents[agent];
        all_mixed(a.sent, a.received)
    } else {
        0
    }
}

// ---- images

// An agent's counts, its value and the last that it took, mixed into a sum.
#[tactic(auto, unfolding(abt_agent::specs::Abstract::agent_of, crate::specs::Giving::agent_mixed))]
fn agent_mixed(sum: u64, a: Agent) -> u64
    ensures { result ≡ agent_mixed sum (agent_of a) }
{
    let counted = count_mixed(sum, all_mixed(a.sent, a.received));
    mixed(mixed(counted, u32::from(a.value)), u32::from(a.last))
}

/// Reads an image of either form. Returns what is read and, in the lowest four bits, the number
/// answered: 0, or 13 where the bytes are no image. Equals `read_for` of specs/Giving.antt.
#[unsafe(no_mangle)]
pub extern "C" fn bench_entry_read(image: &[u8]) -> u64
    ensures { result ≡ read_for (load image.now) }
{
    let loaded = abt_image_mover::load(image);
    let network = abt_start::rail_of(loaded);
    let ruled = u64::from(network.count) * 31 + u64::from(network.rule);
    let mut sum = ruled * 31 + u64::from(network.unsolvable);
    for agent in network.agents {
        sum = agent_mixed(sum, agent);
    }
    (sum % 4294967296) * 16 + u64::from(number_of(loaded.err()))
}

// The form of an image, by the flag that C has for it.
#[tactic(auto, unfolding(crate::specs::Giving::form_for))]
fn form_for(small: bool) -> Form
    ensures { form_named result ≡ form_for small }
{
    if small { Form::Second } else { Form::First }
}

// The length written, or the number of the rejection: C has one number for both.
fn length_of(written: Result<usize, Rejection>) -> u64
    ensures { result ≡ length_given written }
{
    match written {
        Ok(length) => length as u64,
        Err(rejection) => u64::from(rejection.number()),
    }
}

/// Reads an image once, and writes the network that it gives, the empty one where the image is
/// rejected, `times` times into the same buffer, in the second form where `small` is true, else in
/// the first. Returns the length of the last, 0 where nothing was written, or the number that
/// rejects it. `WritesFor` of specs/Giving.antt says so.
#[unsafe(no_mangle)]
pub extern "C" fn bench_entry_write(image: &[u8], small: bool, times: u64, out: &mut [u8]) -> u64
    ensures { WritesFor (form_for small) (load image.now).network times out.old result out.new }
{
    let network = abt_start::rail_of(abt_image_mover::load(image));
    let form = form_for(small);
    let mut last = Ok(0);
    for _ in 0..times {
        last = store_as(form, network, out);
    }
    length_of(last)
}

/// Moves an image to the other form. Returns the length written, or the number that rejects it: 13
/// or 12. `MovesFor` of specs/Giving.antt says so.
#[unsafe(no_mangle)]
pub extern "C" fn bench_entry_move(image: &[u8], out: &mut [u8]) -> u64
    ensures { MovesFor (move image.now out.old) result out.new }
{
    length_of(abt_image_mover::move_image(image, out))
}
