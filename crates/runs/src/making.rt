// The run that matched records make.
ghost use Rattle.std.specs.Prelude.{◌≡◌, ◌≤◌, ◌++◌, length, vec_len, IfOk, OnOk};
ghost use Rattle.records.specs.Record.{record_of, records_of};
ghost use Rattle.letters.specs.Matching.{LettersOf};
ghost use Rattle.runs.specs.Model.{RunOf};
ghost use Rattle.runs.specs.Making.{states_after, states_of, Laid, Within, linked};

use crate::counts::Counts;
use crate::run::Run;
use crate::state::State;
use letters::letter::Letter;
use letters::matched::Matched;
use records::doing::Doing;
use records::place::Place;
use records::record::Record;
use records::records::Records;
use std::alloc::{AllocError, Global};

// Each machine's states, one machine's behind another's, with no letter's sending yet.
#[derive(Drop)]
pub(crate) struct Layout {
    pub(crate) did: Counts,
    pub(crate) starts: Counts,
    pub(crate) states: Vec<State>,
}

// Puts the states after one machine's doings behind what is there.
fn push_doings(states: &mut Vec<State>, doings: &[Doing]) -> Result<(), AllocError>
    ensures { OnOk result (states.new.items ≡ states.old.items ++ states_after doings.now) }
{
    for doing in doings {
        states.push(State {
            sign: doing.sign,
            amount: doing.amount,
            sending: None,
        })?;
    }
    Ok(())
}

// Puts one machine's states behind what is there.
fn push_states(states: &mut Vec<State>, recorded: &Record) -> Result<(), AllocError>
    ensures { OnOk result (states.new.items ≡ states.old.items ++ states_of (record_of recorded.now)) }
{
    states.push(State {
        sign: recorded.sign,
        amount: recorded.amount,
        sending: None,
    })?;
    push_doings(states, &recorded.doings)
}

// Lays all machines' states out.
fn lay_out(heap: Global, records: &Records) -> Result<Layout, AllocError>
    ensures { IfOk result (λ x. Laid (records_of records.now.list.items) (vec_len records.now.list) x.did x.starts x.states.items) }
{
    let mut did = Counts::none();
    let mut starts = Counts::none();
    let mut states = Vec::new(heap);
    for (machine, recorded) in records.list.iter().enumerate() {
        did = did.with(machine, recorded.doings.len() as u16);
        starts = starts.with(machine, states.len() as u16);
        push_states(&mut states, recorded)?;
    }
    Ok(Layout {
        did,
        starts,
        states,
    })
}

// Writes each letter's sending into the state after its getting.
fn link(states: &mut [State], starts: Counts, letters: &[Letter])
    requires within { Within (length states.old) starts letters.now }
    ensures { states.new ≡ linked starts letters.now states.old }
{
    for letter in letters {
        let here = starts.index(usize::from(letter.to), letter.got);
        states[here].sending = Some(Place {
            machine: letter.from,
            doing: letter.sent,
        });
    }
}

// The run that matched records make.
pub fn make_run(heap: Global, matched: &Matched) -> Result<Run, AllocError>
    requires some { 1 ≤ length (records_of matched.now.records.list.items) }
    requires of { LettersOf (records_of matched.now.records.list.items) matched.now.letters.items }
    ensures { IfOk result (RunOf (records_of matched.now.records.list.items)) }
{
    let Layout {
        did,
        starts,
        mut states,
    } = lay_out(heap, &matched.records)?;
    link(&mut states, starts, &matched.letters);
    Ok(Run {
        count: matched.records.list.len(),
        did,
        starts,
        states,
    })
}
