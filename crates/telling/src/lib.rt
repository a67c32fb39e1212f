// What every entry point does at its end: the answer told in numbers, the widget's numbers kept or written.
#![tactic(auto)]

ghost use Rattle.std.specs.Prelude.{◌≡◌};
ghost use Rattle.promises.specs.Host.{Told, Ends, Stops, too_few};

use meaning::answers::FOREIGN;
use meaning::{Answer, Called};
use promises::Replayed;
use saved::{move_on, small, store};

// Writes place and count, and hands the answer back.
pub fn tell(answer: Answer, count: usize, report: &mut [i32; 2]) -> i32
    ensures { Told answer count result report.new }
{
    *report = [small(answer.place), small(count)];
    small(answer.number)
}

// The end of a call on a widget: the numbers of the state after it, where it was done.
pub fn end(called: Called, widget: &mut [i32], report: &mut [i32; 2]) -> i32
    ensures { Ends called widget.old result report.new widget.new }
{
    if called.answer.number == 0 {
        store(called.state, widget);
    }
    tell(called.answer, called.entries, report)
}

// The answer where too few numbers are lent to store a widget: what the chart or plan is refused for comes first.
pub fn too_few(verdict: Answer) -> Answer
    ensures { result ≡ too_few verdict }
{
    if verdict.number != 0 {
        return verdict;
    }
    Answer {
        number: FOREIGN,
        place: 0,
    }
}

// The end of a replay: what was done stays, also where a later event was refused.
pub fn stop(replayed: Replayed, widget: &mut [i32], report: &mut [i32; 3]) -> i32
    ensures { Stops replayed widget.old result report.new widget.new }
{
    let answer = replayed.answer;
    move_on(replayed.state, widget);
    let entries = small(replayed.entries);
    let done = small(replayed.done);
    *report = [small(answer.place), entries, done];
    small(answer.number)
}
