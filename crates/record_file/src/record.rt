// One record: kind (0 empty, 1 owner, 2 rung), a zero byte, and the identity or rung, high byte first.
ghost use Rattle.std.specs.Prelude.{◌≡◌, true};
ghost use Rattle.cells.specs.Marks.{lawful};
ghost use Rattle.record_file.specs.Records.{mark_of, encoded, WellFormed, four};

use cells::Mark;

// The four bytes of a record.
#[derive(Clone, Copy, PartialEq, Eq, Debug)]
pub struct Record(pub [u8; 4]);

// The mark that a record stands for. Bytes in no such form stand for an empty cell.
impl From<Record> for Mark {
    ghost from_gives = { λ r mark. mark ≡ mark_of r.0 };

    fn from(bytes: Record) -> Mark
        ensures value { result ≡ mark_of bytes.0 }
        ensures lawful { lawful result ≡ true }
        ensures back { WellFormed bytes.0 → encoded result ≡ four bytes.0 0 }
    {
        let [kind, zero, high, low] = bytes.0;
        match (kind, zero, u16::from_be_bytes([high, low])) {
            (1, 0, identity @ 1..) => Mark::Owner(identity),
            (2, 0, 1..=16) => Mark::Rung(low),
            _ => Mark::Empty,
        }
    }
}

impl From<Mark> for Record {
    ghost from_gives = { λ mark r. r.0 ≡ encoded mark };

    fn from(mark: Mark) -> Record
        ensures value { result.0 ≡ encoded mark }
        ensures back { lawful mark ≡ true → mark_of result.0 ≡ mark }
    {
        match mark {
            Mark::Empty => Record([0, 0, 0, 0]),
            Mark::Owner(identity) => {
                let [high, low] = identity.to_be_bytes();
                Record([1, 0, high, low])
            }
            Mark::Rung(rung) => Record([2, 0, 0, rung]),
        }
    }
}
