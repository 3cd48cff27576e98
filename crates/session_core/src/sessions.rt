//! `Session`: its commands, and what it keeps of its goals.

ghost use Rattle.std.specs.Prelude.{◌≡◌, [], None, IfOk, MatchOption};
ghost use Rattle.acceptance.specs.Accepting.{IsAccepted};
ghost use Rattle.proof_script.specs.Standing.{Between};
ghost use Rattle.session_core.specs.Sessions.{IsStateOf};
ghost use Rattle.session_core.specs.Sound.{report_of};
ghost use Rattle.session_core.specs.States.{State as StateOf};
ghost use Rattle.session_core.specs.Value.{Applies, IsChange, IsOpenNode, IsSession, Undoes};

use crate::carrying::carry_out;
use crate::commands::{Command, drop_command, push_command};
use crate::copying::copy_command;
use crate::errors::{SessionError, UndoError};
use crate::kept_goals::{KeptGoal, drop_last, finished, first_open, take_step_back};
use crate::reporting::claims_of;
use clause_core::{Clause, Report};
use spec_admit::Admitted;
use std::alloc::Global;
use std::marker::Model;
use term_core::{OutOfMemory, Seq};
use term_order::TermOrder;

/// A session. Contracts see its commands and what it keeps of its goals.
#[derive(Drop)]
pub struct Session {
    commands: Vec<Command>,
    goals: Vec<KeptGoal>,
}

impl Model for Session {
    ghost use Rattle.std.specs.Prelude.{map};
    ghost use Rattle.session_core.specs.Value.{SessionValue, kept_of};
    ghost use Rattle.std.specs.Coded.{codes};
    ghost use Rattle.clause_core.specs.contracts.clauses.Clause as clause_contract;
    ghost use Rattle.clause_core.specs.contracts.answers.Children as children_contract;
    ghost use Rattle.session_core.specs.contracts.commands.Command as command_contract;

    ghost Value = { SessionValue };

    ghost coded = { Prim.hlevel (
      codes,
      command_contract.the_row.coded,
      clause_contract.the_row.coded,
      children_contract.the_row.coded,
    ) };

    ghost view = { λ s. record { commands = s.commands.items; goals = map kept_of s.goals.items } };
}

impl Session {
    /// A session without commands.
    pub fn new(alloc: Global) -> Session
        ensures commands { result.commands ≡ [] }
        ensures goals { result.goals ≡ [] }
    {
        Session {
            commands: Vec::new(alloc),
            goals: Vec::new(alloc),
        }
    }

    /// Carries out a goal or a step, and answers how many nodes have no step then. If it isn't
    /// carried out, the session stays as it is.
    pub fn apply<O: TermOrder>(
        &mut self,
        alloc: Global,
        admitted: &Admitted<O>,
        command: &Command,
    ) -> Result<u32, SessionError>
        requires carried { IsSession (O.above admitted.now.order) admitted.now.spec self.old }
        requires change { IsChange command.now }
        ensures { Applies (O.above admitted.now.order) admitted.now.spec self.old command.now
            self.new result }
    {
        clause_core::one_relation(&admitted.order);
        let copy = copy_command(alloc, command)?;
        push_command(&mut self.commands, copy)?;
        match carry_out(&mut self.goals, alloc, admitted, command) {
            Ok(pending) => Ok(pending),
            Err(error) => {
                drop_command(&mut self.commands);
                Err(error)
            }
        }
    }

    /// The report of the proved claims. `steps` is how many rule uses the evaluation of a side may
    /// cost.
    pub fn report<O: TermOrder>(
        &self,
        alloc: Global,
        admitted: &Admitted<O>,
        steps: u32,
    ) -> Result<Report, OutOfMemory>
        requires carried { IsSession (O.above admitted.now.order) admitted.now.spec self.now }
        requires steps { Between 1 100000 steps }
        ensures report { IfOk result (λ made. (state : StateOf) →
            IsStateOf (O.above admitted.now.order) admitted.now.spec self.now.commands state →
            made ≡ report_of steps state) }
        ensures accepted { IfOk result
            (IsAccepted (O.above admitted.now.order) admitted.now.spec) }
    {
        clause_core::one_relation(&admitted.order);
        let goals = finished(self.goals.as_slice());
        let claims = claims_of(alloc, goals, self.commands.as_slice())?;
        Ok(Report {
            steps,
            claims: Seq::from_vec(claims),
        })
    }

    /// The number and the clause of the node that the next step is for, if a goal is under work.
    pub fn open_node<O: TermOrder>(&self, admitted: &Admitted<O>) -> Option<(usize, &Clause)>
        requires { IsSession (O.above admitted.now.order) admitted.now.spec self.now }
        ensures { (state : StateOf) →
            IsStateOf (O.above admitted.now.order) admitted.now.spec self.now.commands state →
            MatchOption result (state.work ≡ None) (λ p. IsOpenNode state p.0 p.1.now) }
    {
        clause_core::one_relation(&admitted.order);
        first_open(self.goals.as_slice())
    }

    /// Takes the last command back that was accepted, and answers how many nodes have no step then.
    pub fn undo<O: TermOrder>(&mut self, admitted: &Admitted<O>) -> Result<u32, UndoError>
        requires { IsSession (O.above admitted.now.order) admitted.now.spec self.old }
        ensures { Undoes (O.above admitted.now.order) admitted.now.spec self.old self.new result }
    {
        clause_core::one_relation(&admitted.order);
        let Some(command) = self.commands.pop() else {
            return Err(UndoError::Nothing);
        };
        match command {
            Command::Goal(_) => {
                drop_last(&mut self.goals);
                Ok(0)
            }
            _ => Ok(take_step_back(&mut self.goals)),
        }
    }
}
