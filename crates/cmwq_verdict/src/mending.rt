//! What mends a text's fault.
ghost use Rattle.cmwq_fitting.specs.KnownWords.{last_body};
ghost use Rattle.cmwq_grammar.specs.Meaning.{fault_at};
ghost use Rattle.cmwq_verdict.specs.Mending.{body_sentence, fault_sentence, flags_sentence, limits_offered, open_body_after, order_sentence, range_sentence, why_sentence};
ghost use Rattle.cmwq_verdict.specs.Verdicts.{mending_line};
ghost use Rattle.cmwq_verdict.specs.WordPlaces.{IsNext, lines_before, word_of_place};
ghost use Rattle.std.specs.Prelude.{◌≡◌, ◌++◌, IfOk, OnOk, option_map};

use crate::cures::cure_of;
use crate::finding::{Finding, lines_before, word_of_place};
use crate::hints::limits_text;
use crate::writing::{push_between, push_sentence};
use cmwq_fitting::{Limits, Offer, last_body};
use cmwq_grammar::{Next, Why};
use cmwq_scan::is_word;
use cmwq_types::{Fault, NoMemory};
use std::alloc::Global;

/// Writes what mends the text's fault, by its reason, where nothing is said of it beside that.
pub(crate) fn push_mending(
    alloc: Global,
    told: &mut Vec<u8>,
    text: &[u8],
    found: &Finding<'_>,
) -> Result<(), NoMemory>
    requires { IsNext text.now (fault_at found.now.fault.line found.now.fault.why) found.now.next }
    ensures { OnOk result (told.new.items ≡ told.old.items
        ++ mending_line text.now (fault_at found.now.fault.line found.now.fault.why) found.now.place found.now.next found.now.offer) }
{
    if cure_of(alloc, text, found)?.is_some() {
        return Ok(());
    }
    push_reason_found(alloc, told, text, found)
}

/// Writes what mends the text's fault, by its reason.
fn push_reason_found(
    alloc: Global,
    told: &mut Vec<u8>,
    text: &[u8],
    found: &Finding<'_>,
) -> Result<(), NoMemory>
    requires { IsNext text.now (fault_at found.now.fault.line found.now.fault.why) found.now.next }
    ensures { OnOk result (told.new.items ≡ told.old.items
        ++ why_sentence (word_of_place found.now.place) (limits_offered found.now.offer)
        (open_body_after (lines_before text.now (fault_at found.now.fault.line found.now.fault.why)) found.now.next) found.now.fault.why) }
{
    let body = body_left_open(alloc, text, found)?;
    let word = word_of_place(found.place);
    push_reason(
        alloc,
        told,
        word,
        limits_offered(&found.offer),
        body,
        found.fault.why,
    )
}

/// The work whose body is open where the fault is.
fn body_left_open<'t>(
    alloc: Global,
    text: &'t [u8],
    found: &Finding<'_>,
) -> Result<Option<&'t [u8]>, NoMemory>
    requires { IsNext text.now (fault_at found.now.fault.line found.now.fault.why) found.now.next }
    ensures { IfOk result (λ body. option_map (λ name. name.now) body
        ≡ open_body_after (lines_before text.now (fault_at found.now.fault.line found.now.fault.why)) found.now.next) }
{
    match found.next {
        Some(Next::Operation { .. }) => last_body(alloc, lines_before(text, found.fault)),
        _ => Ok(None),
    }
}

/// The numbers that may stand at the place, if some do.
fn limits_offered(offer: &Option<Offer<'_>>) -> Option<Limits>
    ensures { result ≡ limits_offered offer.now }
{
    match offer {
        Some(offer) => offer.limits,
        None => None,
    }
}

/// Writes what mends a line that is refused for this reason, at this word, where these numbers may stand, in this open body.
fn push_reason(
    alloc: Global,
    told: &mut Vec<u8>,
    word: &[u8],
    limits: Option<Limits>,
    body: Option<&[u8]>,
    why: Why,
) -> Result<(), NoMemory>
    ensures { OnOk result (told.new.items ≡ told.old.items ++ why_sentence word.now limits (option_map (λ name. name.now) body.entry) why) }
{
    match why {
        Why::BadUtf8 => push_sentence(
            told,
            b"the line has bytes that aren't UTF-8, perhaps in a comment",
        ),
        Why::BadWord => push_sentence(
            told,
            b"this word means nothing here; the words that fit are listed above",
        ),
        Why::BadName => push_sentence(
            told,
            b"a name has 1 to 15 small letters, digits and _, and begins with a letter",
        ),
        Why::BadNumber => push_sentence(
            told,
            b"a number has 1 to 10 digits, no sign, and no 0 before other digits",
        ),
        Why::MissingWord => push_sentence(told, b"the line or the text ends too early"),
        Why::ExtraWord => push_sentence(
            told,
            b"the line has a word too many; `* N` after an instruction repeats it",
        ),
        Why::Misplaced => push_order(told, body),
        Why::TooLong => push_sentence(told, b"a text has at most 4194304 bytes"),
        Why::Fault(fault) => push_fault(alloc, told, word, limits, body, fault),
    }
}

/// Writes what mends a line that gives the scenario this fault.
fn push_fault(
    alloc: Global,
    told: &mut Vec<u8>,
    word: &[u8],
    limits: Option<Limits>,
    body: Option<&[u8]>,
    fault: Fault,
) -> Result<(), NoMemory>
    ensures { OnOk result (told.new.items ≡ told.old.items ++ fault_sentence word.now limits (option_map (λ name. name.now) body.entry) fault) }
{
    match fault {
        Fault::Range => push_range(alloc, told, limits),
        Fault::TooMany => push_sentence(
            told,
            b"at most 32 queues, 256 work items of 64 operations, 16 actors of 4096 lines",
        ),
        Fault::Duplicate => push_sentence(
            told,
            b"two queues, work items or actors can't have the same name, and a flag is given once",
        ),
        Fault::Unknown => {
            push_sentence(
                told,
                b"no earlier line declares a work item or a queue with this name",
            )
        }
        Fault::BadBody => push_body_end(told, body),
        Fault::BadFlags => push_flags_fit(told, is_word(word, b"ordered")),
    }
}

/// Writes the numbers that may stand at the place.
fn push_range(alloc: Global, told: &mut Vec<u8>, limits: Option<Limits>) -> Result<(), NoMemory>
    ensures { OnOk result (told.new.items ≡ told.old.items ++ range_sentence limits) }
{
    let Some(Limits { low, high }) = limits else {
        return push_sentence(told, b"the number is out of its limits");
    };
    let numbers = limits_text(alloc, low, high)?;
    push_between(
        told,
        b"  the number is out of its limits: it must be ",
        &numbers,
        b"\n",
    )
}

/// Writes what a queue's `max` takes, or that of an ordered queue.
fn push_flags_fit(told: &mut Vec<u8>, is_ordered: bool) -> Result<(), NoMemory>
    ensures { OnOk result (told.new.items ≡ told.old.items ++ flags_sentence is_ordered) }
{
    if is_ordered {
        push_sentence(told, b"an ordered queue has max 1")
    } else {
        push_sentence(
            told,
            b"max takes 1 to 512; a kernel's 0, its default, is 256 in Linux 6.1 and 6.12",
        )
    }
}

/// Writes which lines may stand, in this open body or outside of bodies.
fn push_order(told: &mut Vec<u8>, body: Option<&[u8]>) -> Result<(), NoMemory>
    ensures { OnOk result (told.new.items ≡ told.old.items ++ order_sentence (option_map (λ name. name.now) body.entry)) }
{
    let Some(work) = body else {
        return push_sentence(
            told,
            b"lines come in this order: cpus, workers, steps, flushes, queues, work items, bodies in the order of their work items, actors",
        );
    };
    push_between(
        told,
        b"  the body of ",
        work,
        b" is open: its operations belong here, and finish ends it\n",
    )
}

/// Writes what a body lacks, this open one or any.
fn push_body_end(told: &mut Vec<u8>, body: Option<&[u8]>) -> Result<(), NoMemory>
    ensures { OnOk result (told.new.items ≡ told.old.items ++ body_sentence (option_map (λ name. name.now) body.entry)) }
{
    let Some(work) = body else {
        return push_sentence(told, b"a body ends with its one finish");
    };
    push_between(
        told,
        b"  the body of ",
        work,
        b" lacks the finish that ends it\n",
    )
}
