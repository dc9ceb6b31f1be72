// What a plan asks of an agent.
ghost use Rattle.std.specs.Prelude.{◌≡◌};
ghost use Rattle.std.specs.Option.{ok_or};
ghost use Rattle.plan.specs.Kinds.{kind_of, made};

// A request, a step or a leave, with the agent that it is for.
#[derive(Clone, Copy, PartialEq, Eq, Debug)]
pub enum Event {
    Request(usize),
    Step(usize),
    Leave(usize),
}

// What is asked, without the agent. Not `model`'s rounds: a file has a number for a kind, a word has a letter for a round,
// and one type has one conversion from a byte.
#[derive(Clone, Copy)]
pub enum Kind {
    Request,
    Step,
    Leave,
}

// A byte that stands for no kind.
#[derive(Clone, Copy, PartialEq, Eq, Debug)]
pub struct UnknownKind {
    pub byte: u8,
}

impl TryFrom<u8> for Kind {
    type Error = UnknownKind;

    ghost try_from_gives = { λ n r. r ≡ ok_or (kind_of n) (record { byte = n }) };

    fn try_from(byte: u8) -> Result<Kind, UnknownKind> {
        match byte {
            1 => Ok(Kind::Request),
            2 => Ok(Kind::Step),
            3 => Ok(Kind::Leave),
            _ => Err(UnknownKind { byte }),
        }
    }
}

impl Event {
    pub(crate) fn new(kind: Kind, agent: usize) -> Event
        ensures value { result ≡ made kind agent }
    {
        match kind {
            Kind::Request => Event::Request(agent),
            Kind::Step => Event::Step(agent),
            Kind::Leave => Event::Leave(agent),
        }
    }
}
