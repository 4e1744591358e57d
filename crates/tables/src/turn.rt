use std::marker::Model;

/// The leave to compute a task of a round, which comes with a ticket.
#[derive(Debug, Drop)]
pub struct Turn {
    round: u32,
    task: u32,
    ticket: u64,
}

impl Model for Turn {
    ghost use Rattle.tables.specs.Turns.{Turned};

    ghost Value = { Turned };

    ghost view = { λ t. record { round = t.round; task = t.task; ticket = t.ticket } };
}

impl Turn {
    ghost use Rattle.std.specs.Prelude.{◌≡◌};

    pub(crate) fn new(round: u32, task: u32, ticket: u64) -> Turn
        ensures round { result.round ≡ round }
        ensures task { result.task ≡ task }
        ensures ticket { result.ticket ≡ ticket }
    {
        Turn {
            round,
            task,
            ticket,
        }
    }

    pub fn round(&self) -> u32
        ensures { result ≡ self.now.round }
    {
        self.round
    }

    pub fn task(&self) -> u32
        ensures { result ≡ self.now.task }
    {
        self.task
    }

    pub fn ticket(&self) -> u64
        ensures { result ≡ self.now.ticket }
    {
        self.ticket
    }
}
