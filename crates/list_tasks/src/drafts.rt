//! Schedules put together from their rows, without the rules of extracts.
use cif::content::{Action, BasicSchedule, Content, Location};
use extract::transactions::key_in;
use forms::letters::Stp;
use schedule::key::Key;
use schedule::schedule::Schedule;

/// What rows ask of a store.
#[derive(Clone, Copy)]
pub enum StoreRequest {
    /// Set the schedule of its key.
    Put(Schedule),
    /// Set what is no schedule: its key alone is told.
    Unfit(Key),
    /// Take a key out.
    Remove(Key),
}

/// The schedule that is being read, if one was begun; of one with a call too many, the key.
#[derive(Clone, Copy)]
pub struct Draft {
    begun: Option<Result<Schedule, Key>>,
}

impl Draft {
    ghost use Rattle.std.specs.Prelude.{◌≡◌, None};
    ghost use Rattle.std.specs.Bool.{OnTrue, OnFalse};
    ghost use Rattle.list_tasks.specs.Drafts.{ReadsNothing, can_ask, is_terminus};

    /// No schedule is being read.
    pub fn new() -> Draft
        ensures { ReadsNothing result }
    {
        Draft { begun: None }
    }

    // Adds a call, which may be one too many.
    fn call(&mut self, at: Location) {
        if let Some(Ok(schedule)) = self.begun {
            self.begun = Some(schedule.with_call(at).map_err(|_| schedule.key()));
        }
    }

    // Sets the operator.
    fn operator(&mut self, operator: [u8; 2]) {
        if let Some(Ok(schedule)) = self.begun {
            self.begun = Some(Ok(schedule.with_operator(operator)));
        }
    }

    // Ends the schedule at its destination, and gives what it asks if one was begun.
    fn end(&mut self, at: Location) -> Option<StoreRequest>
        ensures { ReadsNothing self.new }
    {
        self.call(at);
        let request = match self.begun.take()? {
            Ok(schedule) => StoreRequest::Put(schedule.with_destination(at.tiploc)),
            Err(key) => StoreRequest::Unfit(key),
        };
        Some(request)
    }

    /// Takes a row, and says what it asks. After an LT no schedule is being read.
    pub fn take(&mut self, content: Content) -> Option<StoreRequest>
        ensures asks { OnFalse (can_ask content) (result ≡ None) }
        ensures ended { OnTrue (is_terminus content) (ReadsNothing self.new) }
    {
        match content {
            Content::Schedule(basic) => {
                let (draft, request) = begin(&basic);
                *self = draft;
                return request;
            }
            Content::Operator(operator) => self.operator(operator),
            Content::Origin(at) | Content::Intermediate(at) => self.call(at),
            Content::Terminus(at) => return self.end(at),
            _ => {}
        }
        None
    }
}

// What a BS begins, and what it asks at once.
fn begin(basic: &BasicSchedule) -> (Draft, Option<StoreRequest>) {
    let key = key_in(basic);
    let days = match basic.action {
        Action::Delete => return (Draft::new(), Some(StoreRequest::Remove(key))),
        Action::New(days) | Action::Revise(days) => days,
    };
    let Some(schedule) = Schedule::begun(key, days.to, days.days, days.train) else {
        return (Draft::new(), Some(StoreRequest::Unfit(key)));
    };
    match basic.stp {
        Stp::Cancellation => (Draft::new(), Some(StoreRequest::Put(schedule))),
        _ => {
            let begun = Some(Ok(schedule));
            (Draft { begun }, None)
        }
    }
}
