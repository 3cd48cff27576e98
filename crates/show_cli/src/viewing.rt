//! `show_spec`: what is shown of an accepted specification.

ghost use Rattle.std.specs.Prelude.{◌≡◌, ◌≤◌, ℕ, List, IfOk, option_map};
ghost use Rattle.std.specs.List.{list_any};
ghost use Rattle.spec_order.specs.Orders.{order_of};
ghost use Rattle.file_replies.specs.Reported.{HasReports};
ghost use Rattle.file_replies.specs.Stops.{AsksFor, Finishes, FinishesReading};
ghost use Rattle.file_replies.specs.declared.statuses.Status.TheVariants.{Done, Refused};
ghost use Rattle.show_cli.specs.Ends.{IsEnd, IsEndText, IsView, IsViewText, IsWithin};
ghost use Rattle.show_cli.specs.Ends.{further_files, no_goal_line};
ghost use Rattle.show_cli.specs.Ends.{has_asked as has_asked_goal, is_named as is_goal_named};
ghost use Rattle.show_cli.specs.OpenTexts.{IsOpenText};
ghost use Rattle.show_words.specs.Requests.{task_of};

use crate::pages::AskedPage;
use command_line::ProofBounds;
use file_replies::{Status, Stop, reply_to_file};
use io_core::{Files, Sink, write_all};
use open_pages::open_page;
use show_words::{Command, View};
use spec_admit::Admitted;
use spec_core::{Goal, Spec};
use spec_order::AnyOrder;
use spike_cli::claims_of;
use std::alloc::Global;
use term_core::OutOfMemory;

/// Writes what a command shows of an accepted specification, or that it has no goal of the name.
pub fn show_spec<F: Files, S: Sink>(
    alloc: Global,
    command: &Command,
    admitted: &Admitted<AnyOrder>,
    files: &mut F,
    out: &mut S,
) -> Result<Status, Stop>
    requires ordered { admitted.now.order ≡ order_of admitted.now.spec }
    requires reported { HasReports admitted.now.spec }
    requires within { IsWithin (task_of command.now).view }
    ensures finishes { FinishesReading (S.written out.old) (S.written out.new)
        (S.faults out.old) (S.faults out.new) (F.faults files.old) (F.faults files.new)
        (IsEnd (F.held files.old) (task_of command.now) admitted.now.spec)
        (IsEndText (F.held files.old) (task_of command.now) admitted.now.spec) result }
    ensures asked { AsksFor (further_files (task_of command.now).view)
        (F.asked files.old) (F.asked files.new) }
    ensures stays { (name : List ℕ) → F.held files.new name ≡ F.held files.old name }
    ensures reads { F.faults files.old ≤ F.faults files.new }
    ensures writes { S.faults out.old ≤ S.faults out.new }
{
    if !has_asked(&admitted.spec, command.goal) {
        return refuse_goal(alloc, out);
    }
    show_view(alloc, command, admitted, files, out)
}

/// Writes what a command shows of an accepted specification.
fn show_view<F: Files, S: Sink>(
    alloc: Global,
    command: &Command,
    admitted: &Admitted<AnyOrder>,
    files: &mut F,
    out: &mut S,
) -> Result<Status, Stop>
    requires ordered { admitted.now.order ≡ order_of admitted.now.spec }
    requires reported { HasReports admitted.now.spec }
    requires within { IsWithin (task_of command.now).view }
    ensures finishes { FinishesReading (S.written out.old) (S.written out.new)
        (S.faults out.old) (S.faults out.new) (F.faults files.old) (F.faults files.new)
        (IsView (F.held files.old) (task_of command.now) admitted.now.spec
        (task_of command.now).view)
        (IsViewText (F.held files.old) (task_of command.now) admitted.now.spec
        (task_of command.now).view) result }
    ensures asked { AsksFor (further_files (task_of command.now).view)
        (F.asked files.old) (F.asked files.new) }
    ensures stays { (name : List ℕ) → F.held files.new name ≡ F.held files.old name }
    ensures reads { F.faults files.old ≤ F.faults files.new }
    ensures writes { S.faults out.old ≤ S.faults out.new }
{
    match command.view {
        View::Page { form, report } => {
            let page = AskedPage {
                form,
                file: command.file,
                goal: command.goal,
            };
            reply_to_file(alloc, admitted, &page, report, files, out)
        }
        View::OpenGoals(bounds) => write_open(alloc, command, admitted, bounds, out),
    }
}

/// Writes that there is no goal of the name.
fn refuse_goal<S: Sink>(alloc: Global, out: &mut S) -> Result<Status, Stop>
    ensures finishes { Finishes (S.written out.old) (S.written out.new)
        (S.faults out.old) (S.faults out.new)
        (λ text status. (text ≡ no_goal_line) × (status ≡ Refused))
        (λ text. text ≡ no_goal_line) result }
    ensures writes { S.faults out.old ≤ S.faults out.new }
{
    write_all(out, alloc, b"refused goal\n")?;
    Ok(Status::Refused)
}

/// Whether all goals are asked for, or the specification has the one of this name.
fn has_asked(spec: &Spec, asked: Option<&str>) -> bool
    ensures { result ≡ has_asked_goal spec.now (option_map (λ name. name.now) asked.entry) }
{
    match asked {
        None => true,
        Some(name) => some_named(spec.goals.as_slice(), name),
    }
}

/// Whether some goal has the name.
fn some_named(goals: &[Goal], name: &str) -> bool
    ensures { result ≡ list_any (is_goal_named name.now) goals.now }
{
    goals.iter().any(|goal| is_named(goal, name))
}

fn is_named(goal: &Goal, name: &str) -> bool
    ensures { result ≡ is_goal_named name.now goal.now }
{
    goal.name.as_bytes() == name.as_bytes()
}

/// Writes the text on the goals that are left open within the bounds.
fn write_open<S: Sink>(
    alloc: Global,
    command: &Command,
    admitted: &Admitted<AnyOrder>,
    bounds: ProofBounds,
    out: &mut S,
) -> Result<Status, Stop>
    requires ordered { admitted.now.order ≡ order_of admitted.now.spec }
    requires within { bounds.plain ≤ 1000 }
    ensures finishes { Finishes (S.written out.old) (S.written out.new)
        (S.faults out.old) (S.faults out.new)
        (λ text status. IsOpenText admitted.now.spec (task_of command.now).file
        (task_of command.now).goal bounds text × (status ≡ Done))
        (IsOpenText admitted.now.spec (task_of command.now).file (task_of command.now).goal bounds)
        result }
    ensures writes { S.faults out.old ≤ S.faults out.new }
{
    let text = open_text(alloc, command, admitted, bounds)?;
    write_all(out, alloc, &text)?;
    Ok(Status::Done)
}

/// The text on the goals that are left open within the bounds.
fn open_text(
    alloc: Global,
    command: &Command,
    admitted: &Admitted<AnyOrder>,
    bounds: ProofBounds,
) -> Result<Vec<u8>, OutOfMemory>
    requires ordered { admitted.now.order ≡ order_of admitted.now.spec }
    requires within { bounds.plain ≤ 1000 }
    ensures { IfOk result (λ text. IsOpenText admitted.now.spec (task_of command.now).file
        (task_of command.now).goal bounds text.items) }
{
    let claims = claims_of(alloc, admitted, bounds)?;
    let Command { file, goal, .. } = *command;
    open_page(alloc, admitted, file, goal, bounds.search, &claims)
}
