//! Reading an order off the words of a line.
ghost use Rattle.cmwq_debug_lines.specs.Orders.{activation_break, alone, break_order, dump_order, next_order, on_activation, on_work, only, order_of, verb_order, why_order, why_work, with_count, with_number, work_break};
ghost use Rattle.cmwq_types.specs.Scenario.{work_named};
ghost use Rattle.cmwq_debug.specs.declared.command.Command.{Command};
ghost use Rattle.cmwq_types.specs.declared.limits.TheConstants.{MAX_WORKS};
ghost use Rattle.cmwq_scan.specs.Words.{words_in};
ghost use Rattle.std.specs.Prelude.{◌≡◌, ◌<◌, ◌≤◌, ℕ, length};

use crate::order::Order;
use crate::verb::Verb;
use cmwq_debug::{Command, EventKind};
use cmwq_scan::{Token, is_word, number_in};
use cmwq_types::{Scenario, WorkId};

/// What a line of these words tells.
pub(crate) fn order_of(scenario: &Scenario, words: &[Token]) -> Order
    requires { length scenario.now.works ≤ MAX_WORKS }
    ensures { result ≡ order_of scenario.now (words_in words.now) }
{
    let [word, rest @ ..] = words else {
        return Order::Nothing;
    };
    match Verb::read(word.bytes()) {
        Some(verb) => verb_order(scenario, verb, rest),
        None => Order::Bad,
    }
}

/// What the verb tells with the words behind it.
fn verb_order(scenario: &Scenario, verb: Verb, words: &[Token]) -> Order
    requires { length scenario.now.works ≤ MAX_WORKS }
    ensures { result ≡ verb_order scenario.now verb (words_in words.now) }
{
    match verb {
        Verb::Step => count_order(Command::Step, words),
        Verb::Back => count_order(Command::Back, words),
        Verb::Goto => number_order(Command::Goto, u32::MAX, words),
        Verb::Break => break_order(scenario, words),
        Verb::Clear => number_order(|number| Command::Clear(number as u8), 255, words),
        Verb::List => alone(Command::List, words),
        Verb::Run => alone(Command::Run, words),
        Verb::Next => next_order(words),
        Verb::Dump => dump_order(words),
        Verb::Why => why_order(scenario, words),
        Verb::Help => only(Order::Help, words),
        Verb::Quit => only(Order::Quit, words),
    }
}

/// The command with the number that these words are, or with 1 where there are none.
fn count_order<F: FnOnce(u32) -> Command>(command: F, words: &[Token]) -> Order
    requires { (n : ℕ) → n ≤ 4294967295 → F.pre command n }
    ensures { (made : ℕ → Command) → ((n : ℕ) → (told : Command) → n ≤ 4294967295 → F.post command n told → told ≡ made n)
        → result ≡ with_count made (words_in words.now) }
{
    match words {
        [] => Order::Do(command(1)),
        _ => number_order(command, u32::MAX, words),
    }
}

/// The command with the number that these words are, which is at most this high.
fn number_order<F: FnOnce(u32) -> Command>(command: F, high: u32, words: &[Token]) -> Order
    requires { (n : ℕ) → n ≤ high → F.pre command n }
    ensures { (made : ℕ → Command) → ((n : ℕ) → (told : Command) → n ≤ high → F.post command n told → told ≡ made n)
        → result ≡ with_number made high (words_in words.now) }
{
    match number_in(words, high) {
        Ok(n) => Order::Do(command(n)),
        Err(_) => Order::Bad,
    }
}

/// The command, where no word stands behind it.
fn alone(command: Command, words: &[Token]) -> Order
    ensures { result ≡ alone command (words_in words.now) }
{
    only(Order::Do(command), words)
}

/// The order, where no word stands behind it.
fn only(order: Order, words: &[Token]) -> Order
    ensures { result ≡ only order (words_in words.now) }
{
    if words.is_empty() { order } else { Order::Bad }
}

/// Behind `next`: the word `event`.
fn next_order(words: &[Token]) -> Order
    ensures { result ≡ next_order (words_in words.now) }
{
    match words {
        [word, rest @ ..] if is_word(word.bytes(), b"event") => alone(Command::NextEvent, rest),
        _ => Order::Bad,
    }
}

/// Behind `dump`.
fn dump_order(words: &[Token]) -> Order
    ensures { result ≡ dump_order (words_in words.now) }
{
    match words {
        [] => Order::Do(Command::Dump),
        [word, rest @ ..] if is_word(word.bytes(), b"pool") => {
            number_order(|pool| Command::DumpPool(pool as u8), 255, rest)
        }
        _ => Order::Bad,
    }
}

/// Behind `why`: a work's name, which may be `flush`, or that word and the number of a flush.
fn why_order(scenario: &Scenario, words: &[Token]) -> Order
    requires { length scenario.now.works ≤ MAX_WORKS }
    ensures { result ≡ why_order scenario.now (words_in words.now) }
{
    match words {
        [name] => why_work(scenario, name.bytes()),
        [word, rest @ ..] if is_word(word.bytes(), b"flush") => {
            number_order(Command::WhyFlush, u32::MAX, rest)
        }
        _ => Order::Bad,
    }
}

/// Behind `why` and a name alone.
fn why_work(scenario: &Scenario, name: &[u8]) -> Order
    requires { length scenario.now.works ≤ MAX_WORKS }
    ensures { result ≡ why_work (work_named scenario.now name.now) }
{
    match scenario.work_named(name) {
        Some(w) => Order::Do(Command::Why(WorkId(w as u16))),
        None => Order::NoWork,
    }
}

/// Behind `break`.
fn break_order(scenario: &Scenario, words: &[Token]) -> Order
    requires { length scenario.now.works ≤ MAX_WORKS }
    ensures { result ≡ break_order scenario.now (words_in words.now) }
{
    let [word, rest @ ..] = words else {
        return Order::Bad;
    };
    let word = word.bytes();
    if is_word(word, b"work") {
        work_break(scenario, rest)
    } else if is_word(word, b"time") {
        number_order(Command::BreakTime, u32::MAX, rest)
    } else if is_word(word, b"refusal") {
        alone(Command::BreakRefusal, rest)
    } else if is_word(word, b"activates") {
        activation_break(scenario, rest)
    } else {
        Order::Bad
    }
}

/// Behind `break work`: a work's name, `event`, and the word of an event.
fn work_break(scenario: &Scenario, words: &[Token]) -> Order
    requires { length scenario.now.works ≤ MAX_WORKS }
    ensures { result ≡ work_break scenario.now (words_in words.now) }
{
    match words {
        [name, word, event] if is_word(word.bytes(), b"event") => {
            on_work(scenario, name.bytes(), EventKind::read(event.bytes()))
        }
        _ => Order::Bad,
    }
}

/// A break on an event of the work of this name. The event is judged before the name is looked up.
fn on_work(scenario: &Scenario, name: &[u8], event: Option<EventKind>) -> Order
    requires { length scenario.now.works ≤ MAX_WORKS }
    ensures { result ≡ on_work (work_named scenario.now name.now) event }
{
    let Some(event) = event else {
        return Order::Bad;
    };
    match scenario.work_named(name) {
        Some(w) => Order::Do(Command::BreakWork {
            work: WorkId(w as u16),
            event,
        }),
        None => Order::NoWork,
    }
}

/// Behind `break activates`: a work's name.
fn activation_break(scenario: &Scenario, words: &[Token]) -> Order
    requires { length scenario.now.works ≤ MAX_WORKS }
    ensures { result ≡ activation_break scenario.now (words_in words.now) }
{
    match words {
        [name] => on_activation(scenario, name.bytes()),
        _ => Order::Bad,
    }
}

/// A break on the activation of the work of this name.
fn on_activation(scenario: &Scenario, name: &[u8]) -> Order
    requires { length scenario.now.works ≤ MAX_WORKS }
    ensures { result ≡ on_activation (work_named scenario.now name.now) }
{
    match scenario.work_named(name) {
        Some(w) => Order::Do(Command::BreakActivation(WorkId(w as u16))),
        None => Order::NoWork,
    }
}
