//! The texts of `help`: of the program and of each command.

/// The program's version.
pub const VERSION: &str = "0.1.0";

/// The usage line of the program.
pub const USAGE: &str = "cmwq <COMMAND>";

/// Follows the options if the program has no words.
pub const PROGRAM: &str = "\
Look:    new, run, draw, debug
Ask:     why, explore, times, check, play
Export:  trace
Files:   settle, list, asm, show

Begin with `cmwq new first.cmwq`. `cmwq help` says what each command is for.";

/// Follows the options in `cmwq help`.
pub const COMMANDS: &str = "\
Look:
  new      writes a scenario to start from
  run      prints a line for each event of a scenario
  draw     draws a picture of a run, as text or SVG
  debug    steps through a run, forward and back

Ask:
  why      prints what a work item or a flush waits for
  explore  searches all interleavings of the callers for one that breaks a rule
  times    prints how long each work item waited, and for what
  check    prints the first fault of a scenario's text
  play     runs the callers as threads

Export:
  trace    writes a run for Perfetto, jq, trace-cmd or KernelShark

Files:
  settle   prints a scenario that runs until its machine is quiet
  list     prints a scenario without comments
  asm      writes the image of a scenario
  show     prints the scenario of an image
  help     prints this page, or the page of one command

Examples:
  cmwq new first.cmwq
  cmwq run first.cmwq
  cmwq draw first.cmwq
  cmwq why first.cmwq b
  cmwq help why
  cmwq help scenario

`cmwq help scenario` prints the language of scenarios, on one page. A FILE or
IMAGE that is read may be -, which is standard input.

Every command takes --explain, anywhere among its words. After a fault more
lines then say what can be done about it. After a run they say what to know
about it. At a terminal this is always so.

docs/FORMATS.md has the formats, the debugger's commands, and all faults.

Exit status:
  0  the command succeeded
  1  the file isn't a scenario's text or image
  1  the scenario has another number of actors than the command needs
  1  the machine never becomes quiet
  1  an actor, a work item, a queue, a flush or a position doesn't exist
  2  the command line is wrong, or a picture has more than 500 columns
  3  a file can't be opened, made, read or written
  4  memory ran out, or a run has too many instructions
  5  `explore` found an interleaving that breaks the rule
  6  `explore` found none, but it isn't known for all interleavings";

/// The help of `new`.
pub const NEW: &str = "\
Usage: cmwq new [FILE]

Writes a scenario to start from, with comments.

Example:
  cmwq new first.cmwq

FILE must not exist yet. Without FILE the scenario goes to standard output.

Options:
  --explain  after a fault, says what can be done about it

Exit status:
  0  the scenario was written
  2  the command line is wrong
  3  `write`: FILE exists already or can't be made, or the output fails";

/// The help of `run`.
pub const RUN: &str = "\
Usage: cmwq run [--settle] [--tell] [--strict] FILE

Runs a scenario of one actor, and prints a line for each event.

Examples:
  cmwq run first.cmwq
  cmwq run --settle scenarios/activation_order.cmwq
  cmwq run --tell scenarios/max_active_1.cmwq
  cmwq run --strict first.cmwq

A line has the time, the work item, and what it did.

Options:
  --settle   continues with `next` until no work item is pending or running
  --tell     also prints each instruction with its position, and the changes
             that no event shows. These are time that passed, workers of starts,
             work items that were placed or activated, and timers that were set.
             These lines begin with #. Equal instructions in a row that have
             nothing left to wait for have one line.
  --strict   ends with status 1 if an instruction of the actor was refused, and
             says on standard error how many were
  --explain  after a fault, says what can be done about it; after a run, says
             what to know about it

With --settle and --tell nothing is printed if the machine never becomes quiet.

Exit status:
  0  the run was printed; without --strict, instructions may have been refused
  1  `line 6: Duplicate`: the text's first fault
  1  `actors`: the scenario doesn't have exactly one actor
  1  `never quiet`: with --settle, the steps or 1,048,576 instructions were over
     before the machine was quiet; the run up to there was printed
  1  `refused 3 instructions, first at position 4`: with --strict
  2  the command line is wrong
  3  `read`: FILE can't be read
  3  `write`: the output can't be written
  4  `full`: more than 1,048,576 instructions, or with --settle and --tell more
     than 4,096 lines
  4  `no memory`";

/// The help of `settle`.
pub const SETTLE: &str = "\
Usage: cmwq settle FILE

Prints a scenario with the fewest `next` after which its machine is quiet.

Example:
  cmwq settle scenarios/activation_order.cmwq

A machine is quiet if no work item is pending or running. The output is the
scenario's canonical text. If you run it, it prints what `run --settle` prints.

Options:
  --explain  after a fault, says what can be done about it

Exit status:
  0  the scenario was written
  1  `line 6: Duplicate`: the text's first fault
  1  `actors`: the scenario doesn't have exactly one actor
  1  `never quiet`: the steps or 1,048,576 instructions were over before the
     machine was quiet
  2  the command line is wrong
  3  `read`: FILE can't be read
  3  `write`: the output can't be written
  4  `full`: more than 1,048,576 instructions, or more than 4,096 lines
  4  `no memory`";

/// The help of `draw`.
pub const DRAW: &str = "\
Usage: cmwq draw [--settle] [--svg] [--from T] [--to T] [--fold]
                 [--works A,B,..] [--scale N] [--id NAME] FILE

Draws a scenario's run: one row per work item, one column per tick.

Examples:
  cmwq draw first.cmwq
  cmwq draw scenarios/max_active_3.cmwq
  cmwq draw --from 10 --to 20 scenarios/max_active_3.cmwq
  cmwq draw --svg scenarios/max_active_3.cmwq > max_active_3.svg

Below the work items there is a row for each CPU, and one for the actor. The
last lines explain the signs, and list what the actor did.

Options:
  --settle        continues with `next` until the machine is quiet
  --svg           writes an SVG picture
  --from T        draws from tick T on
  --to T          draws up to the tick before T
  --fold          makes one column of each gap of more than 20 ticks without a
                  change. It is done unasked if there would be more than 500
                  columns and not both of --from and --to are given.
  --works A,B,..  draws only the rows of these work items
  --scale N       makes a tick N pixels wide in an SVG picture: 1 to 100, and 10
                  if it isn't given
  --id NAME       is the name of the SVG picture in a page that contains it: 1
                  to 64 letters, digits, - and _, first a letter; else `cmwq`
  --explain       after a fault, says what can be done about it; after a run,
                  says what to know about it

Exit status:
  0  the picture was written
  1  `line 6: Duplicate`: the text's first fault
  1  `actors`: the scenario doesn't have exactly one actor
  1  `never quiet`: with --settle, as for `run`
  1  `no such work`: one of --works isn't declared
  2  the command line is wrong
  2  `more than 500 columns: give --from and --to`: even folded
  3  `read`: FILE can't be read
  3  `write`: the output can't be written
  4  `full`: more than 1,048,576 instructions, or with --settle more than 4,096
     lines
  4  `no memory`";

/// The help of `why`.
pub const WHY: &str = "\
Usage: cmwq why FILE WORK [--every | --at K | --time T] [--settle]
       cmwq why FILE --flush F [--every | --at K | --time T] [--settle]

Prints what a work item or a flush waits for, each time that this changes.

Examples:
  cmwq why first.cmwq b
  cmwq why scenarios/holds_the_limit.cmwq b
  cmwq why --time 5 scenarios/holds_the_limit.cmwq b
  cmwq why --every scenarios/queued_between.cmwq a
  cmwq why --flush 0 scenarios/holds_the_limit.cmwq

A line is `at K now N WORK REASON`: K instructions have been carried out, and
it is tick N. There is a line for the first settled position, and one for each
later one at which the reason changes. A position is settled if no timer is due
and no pool has a move. The last position is looked at too.

With --flush the first line says for how many instances the flush waits. A line
for each of these says what it waits for. Lines that are indented further do so
for the work items that were named.

Options:
  --flush F  is the number of a flush, as `run` prints it, instead of WORK
  --every    looks at every position
  --at K     looks only at position K, after the first K instructions
  --time T   looks only at the settled positions of tick T
  --settle   continues with `next` until the machine is quiet
  --explain  after a fault, says what can be done about it; after a run, says
             what to know about it

Exit status:
  0  the lines were written
  1  `line 6: Duplicate`: the text's first fault
  1  `actors`: the scenario doesn't have exactly one actor
  1  `no such work`: no work item has this name
  1  `past the end`: the run has fewer than K instructions, or no tick T
  1  `no such flush`: flush F isn't given, or not by then
  1  `never quiet`: with --settle, as for `run`
  2  the command line is wrong
  3  `read`: FILE can't be read
  3  `write`: the output can't be written
  4  `full`: more than 1,048,576 instructions, or with --settle more than 4,096
     lines
  4  `no memory`";

/// The help of `explore`.
pub const EXPLORE: &str = "\
Usage: cmwq explore FILE --never WORK [WORK] [--before A B].. [--limit N]
       cmwq explore FILE --after ACTOR --never WORK [--before A B].. [--limit N]
       cmwq explore FILE --stuck [--before A B].. [--limit N]

Searches every interleaving of the callers for one that breaks a rule you state.

Examples:
  cmwq explore scenarios/poll_cancel.cmwq --after remove --never poll
  cmwq explore scenarios/poll_cancel.cmwq --never poll --limit 1000
  cmwq explore scenarios/poll_cancel.cmwq --stuck --before probe remove

The callers are the scenario's actors. Moves of pools, timers and ticks come in
every order too. An actor waits for each of its flushes, and at an `until`, a
`wait` or a `quiet` until its condition is true. A `cancel_sync` is carried out
as `disable`, `flush` and `enable`.

If no interleaving breaks the rule, `holds in all N states; COUNTS` is printed.
COUNTS says in how many states there was something to check, for example
`A has ended in 46`. If one breaks it, the shortest is printed as a scenario of
one actor. Comments say who gives each instruction. The commands `run`, `draw`,
`why` and `debug` read it.

Options:
  --never WORK       the work item must never run
  --never WORK WORK  the two must never run at the same time
  --after ACTOR --never WORK
                     when the actor has ended, the work item must not be pending
                     or running
  --stuck            it must not happen that an actor hasn't ended and nothing
                     can continue
  --before A B       actor B begins only when actor A has ended; may be given
                     several times, without a cycle
  --limit N          looks at no more than N states: 1 to 1,000,000, and 100,000
                     if it isn't given
  --explain          after a fault, says what can be done about it

Exit status:
  0  `holds in all N states; COUNTS`: no interleaving breaks the rule
  1  `line 6: Duplicate`: the text's first fault
  1  `actors`: there is no actor
  1  `no such actor`, `no such work`: nothing has this name
  1  `flushes N needed`: the actors give more flushes than the scenario allows
  2  the command line is wrong
  3  `read`: FILE can't be read
  3  `write`: the output can't be written
  4  `full`: the actors have more than 4,096 lines in all, a `cancel_sync` being
     three
  4  `no memory`
  5  an interleaving breaks the rule: the scenario that shows it was written
  6  `holds within S steps, in all N states; COUNTS`: some interleaving spends
     the scenario's steps
  6  `vacuous in all N states; COUNTS`: a count is 0
  6  `gave up at N states; holds for all orders of at most D instructions`:
     there are more states than --limit";

/// The help of `times`.
pub const TIMES: &str = "\
Usage: cmwq times [--json] [--whom] FILE
       cmwq times [--json] --sweep QUEUE LOW..HIGH FILE

Prints how long each request for a work item waited and ran, in ticks.

Examples:
  cmwq times scenarios/holds_the_limit.cmwq --json
  cmwq times scenarios/holds_the_limit.cmwq --whom
  cmwq times scenarios/holds_the_limit.cmwq --sweep q 1..3

Each request has one line, when it ends. It has the ticks on a timer, inactive,
on a worklist, deferred, without the CPU, burning and asleep. The line also says
if it was finished or cancelled, or is still there. Then come sums for each
queue, CPU and unbound pool.

Options:
  --json     makes each line a JSON object, with the same words
  --whom     also prints for whom each work item waited, and for how many ticks
  --sweep QUEUE LOW..HIGH
             runs the scenario once for each max_active of QUEUE from LOW to
             HIGH: 1 to 512, and at most 64 values. Each line has when the last
             instance finished, how many are left, the most active ones, and the
             longest wait. It doesn't go with --whom.
  --explain  after a fault, says what can be done about it

Exit status:
  0  the lines were written
  1  `line 6: Duplicate`: the text's first fault
  1  `actors`: the scenario doesn't have exactly one actor
  1  `no such queue`: with --sweep, no queue has this name
  1  `ordered`: with --sweep, that queue's max_active is always 1
  2  the command line is wrong
  3  `read`: FILE can't be read
  3  `write`: the output can't be written
  4  `full`: more than 1,048,576 instructions
  4  `no memory`";

/// The help of `trace`.
pub const TRACE: &str = "\
Usage: cmwq trace FILE (--json | --lines | --text | --dat OUT)

Writes a scenario's run for tools that show traces.

Examples:
  cmwq trace scenarios/holds_the_limit.cmwq --json > holds_the_limit.json
  cmwq trace scenarios/holds_the_limit.cmwq --text
  cmwq trace scenarios/holds_the_limit.cmwq --dat holds_the_limit.dat

Give exactly one of these forms. A tick is a millisecond.

Options:
  --json     writes what each work item did and waited for, and what each worker
             executed, in Chrome's trace event format. Perfetto's page and
             chrome://tracing open it.
  --lines    writes a JSON object for each line of `run`, for jq
  --text     writes the workqueue events as a kernel's trace file shows them
  --dat OUT  makes the file OUT of these events, for `trace-cmd report OUT` and
             `kernelshark OUT`
  --explain  after a fault, says what can be done about it

Exit status:
  0  the trace was written
  1  `line 6: Duplicate`: the text's first fault
  1  `actors`: the scenario doesn't have exactly one actor
  2  the command line is wrong
  3  `read`: FILE can't be read
  3  `write`: the output can't be written, or OUT can't be made
  4  `full`: more than 1,048,576 instructions
  4  `no memory`";

/// The help of `list`.
pub const LIST: &str = "\
Usage: cmwq list FILE

Prints a scenario's canonical text: one space between words, and no comments.

Example:
  cmwq list scenarios/max_active_3.cmwq

Options:
  --explain  after a fault, says what can be done about it

Exit status:
  0  the text was written
  1  `line 6: Duplicate`: the text's first fault
  2  the command line is wrong
  3  `read`: FILE can't be read
  3  `write`: the output can't be written
  4  `no memory`";

/// The help of `asm`.
pub const ASM: &str = "\
Usage: cmwq asm FILE OUT

Makes the file OUT, the image of a scenario.

Example:
  cmwq asm scenarios/max_active_3.cmwq max_active_3.image

What OUT contained is lost, even if FILE has a fault. OUT can't be FILE itself.

Options:
  --explain  after a fault, says what can be done about it

Exit status:
  0  OUT is the scenario's image
  1  `line 6: Duplicate`: the text's first fault; OUT is empty
  2  the command line is wrong
  3  `read`: FILE can't be read
  3  `write`: OUT can't be made or written
  4  `no memory`";

/// The help of `show`.
pub const SHOW: &str = "\
Usage: cmwq show IMAGE

Prints the canonical text of the scenario in an image.

Example:
  cmwq show max_active_3.image

Options:
  --explain  after a fault, says what can be done about it

Exit status:
  0  the text was written
  1  `image: BadField 37`: the image's first fault
  2  the command line is wrong
  3  `read`: IMAGE can't be read
  3  `write`: the output can't be written
  4  `no memory`";

/// The help of `debug`.
pub const DEBUG: &str = "\
Usage: cmwq debug [--settle] FILE

Steps through a scenario's run, forward and back, by commands of standard input.

Example:
  cmwq debug scenarios/max_active_2.cmwq < scenarios/max_active_2.debug

A command is one line. Each is answered before the next one is read:
  step N, back N, goto K, run, next event
  break work W event E, break time T, break refusal, break activates W
  clear I, list, dump, dump pool P, why W, why flush F, help, quit

Options:
  --settle   continues with `next` until the machine is quiet
  --explain  after a fault, says what can be done about it

Exit status:
  0  the input ended, or `quit` came; refused and bad commands have an answer
  1  `line 6: Duplicate`: the text's first fault
  1  `actors`: the scenario doesn't have exactly one actor
  1  `too long`: the commands have more than 4,194,304 bytes
  1  `never quiet`: with --settle, as for `run`
  2  the command line is wrong; FILE can't be -, because the commands come from
     there
  3  `read`: FILE or the commands can't be read
  3  `write`: the output can't be written
  4  `full`: more than 1,048,576 instructions, or with --settle more than 4,096
     lines
  4  `no memory`";

/// The help of `play`.
pub const PLAY: &str = "\
Usage: cmwq play FILE --capacity N

Runs a scenario's actors as threads, and prints the order that came about.

Example:
  cmwq play scenarios/race.cmwq --capacity 100

The output is a scenario of one actor, which gives the instructions in the
order of that run. The lines that it prints follow as comments.

Options:
  --capacity N  is how many instructions the machine accepts at most, 1 to 4,096
  --explain     after a fault, says what can be done about it

Exit status:
  0  all instructions of each actor were accepted
  1  `line 6: Duplicate`: the text's first fault
  1  `actors`: there is no actor
  2  the command line is wrong
  3  `read`: FILE can't be read
  3  `write`: the output can't be written
  4  `full`: the machine accepted N instructions, and there were more
  4  `tickets`: no ticket was left
  4  `no memory`";

/// The help of `check`.
pub const CHECK: &str = "\
Usage: cmwq check FILE..

Prints the first fault of each file, or `FILE: ok` if it has none.

Example:
  cmwq check first.cmwq scenarios/race.cmwq

A fault goes to standard error. A second line says what fits there, for example
`  a line here may begin with: queue, work, actor`. For a good file notes may
follow on standard error, for example if a kernel does otherwise. They don't
change the status.

Options:
  --explain  after a fault, also shows the line, and says what can be done

Exit status, the highest of all files:
  0  each file is a scenario's text
  1  `first.cmwq:6:1: quue: BadWord`: file, line, column, word and reason
  2  the command line is wrong
  3  `first.cmwq: read`: a file can't be read
  3  `write`: the output can't be written
  4  `no memory`";
