// The records of the lines of a frame, in tables of fixed room, and the counts of a job.
ghost use Rattle.std.specs.Prelude.{◌≡◌, ◌≤◌, length, take, set, replicate, slice_index_or, slice_set};

// How a line stands: open is to be decoded; sound was a codeword, or became one, when it was last decoded;
// stuck had no codeword in reach. No byte of a sound or stuck line has changed since then.
#[derive(Clone, Copy, PartialEq, Eq, Debug)]
pub enum Standing {
    Open,
    Sound,
    Stuck,
}

// What is known of one line. The tally counts the places changed by decoding this line.
#[derive(Clone, Copy, PartialEq, Eq, Debug)]
pub struct Record {
    pub standing: Standing,
    pub tally: u64,
}

impl Record {
    // The record of a line that was never decoded.
    pub const FRESH: Record = Record {
        standing: Standing::Open,
        tally: 0,
    };
}

// The two kinds of lines. Each line of one kind crosses every line of the other.
#[derive(Clone, Copy, PartialEq, Eq, Debug)]
pub enum Kind {
    Row,
    Column,
}

impl Kind {
    ghost use Rattle.job_rules.specs.Records.{crossing};

    pub fn other(self) -> Kind
        ensures { result ≡ crossing self }
    {
        match self {
            Kind::Row => Kind::Column,
            Kind::Column => Kind::Row,
        }
    }
}

// What a job has counted since it was new.
#[derive(Clone, Copy, Default, PartialEq, Eq, Debug)]
pub struct Counts {
    pub calls: u64,
    pub passes: u64,
    pub decodings: u64,
    pub redelivered: u64,
}

// The most lines of a kind that a code can ask for.
const ROOM: usize = 255;

// The records of all lines. It is the rule here that they stand in a plain struct, and that the job alone has invariants:
// so what reads the tables says how long they are.
#[derive(Clone, Copy)]
pub struct Lines {
    rows: [Record; ROOM],
    columns: [Record; ROOM],
}

impl Lines {
    ghost use Rattle.job_rules.specs.Records.{fresh, crossing, on, opened, tallies};

    // Every line is open, and nothing is tallied.
    pub fn new() -> Lines
        ensures rows { result.rows ≡ replicate 255 fresh }
        ensures columns { result.columns ≡ replicate 255 fresh }
    {
        Lines {
            rows: [Record::FRESH; ROOM],
            columns: [Record::FRESH; ROOM],
        }
    }

    // The table of the lines of a kind.
    fn of(&self, kind: Kind) -> &[Record]
        ensures value { result.now ≡ on kind self.now }
        ensures most { length result.now ≡ 255 }
    {
        match kind {
            Kind::Row => &self.rows,
            Kind::Column => &self.columns,
        }
    }

    // The records of the first n lines of a kind, or of as many as there is room for.
    pub fn first(&self, kind: Kind, n: usize) -> &[Record]
        ensures value { result.now ≡ take n (on kind self.now) }
        ensures most { length result.now ≤ 255 }
        ensures room { length (on kind self.now) ≡ 255 }
        ensures low { tallies result.now ≤ tallies (on kind self.now) }
    {
        let records = self.of(kind);
        &records[..n.min(records.len())]
    }

    // How many lines of a kind there is room for.
    pub fn room(&self, kind: Kind) -> usize
        ensures value { result ≡ length (on kind self.now) }
        ensures most { result ≡ 255 }
    {
        self.of(kind).len()
    }

    // The record of one line; past the tables, that of a line never decoded.
    pub fn at(&self, kind: Kind, i: usize) -> Record
        ensures value { result ≡ slice_index_or (on kind self.now) i fresh }
        ensures room { length (on kind self.now) ≡ 255 }
    {
        self.of(kind).get(i).copied().unwrap_or(Record::FRESH)
    }

    // Changes the record of one line; past the tables there is none. By index: what is written through an element
    // that `get_mut` lends is not known afterwards.
    pub fn put(&mut self, kind: Kind, i: usize, record: Record)
        ensures here { on kind self.new ≡ set (on kind self.old) i «record» }
        ensures other { on (crossing kind) self.new ≡ on (crossing kind) self.old }
    {
        if i < ROOM {
            match kind {
                Kind::Row => self.rows[i] = record,
                Kind::Column => self.columns[i] = record,
            }
        }
    }

    // Opens one line; its tally stays.
    pub fn open(&mut self, kind: Kind, i: usize)
        ensures here { on kind self.new ≡ slice_set (on kind self.old) i (opened (slice_index_or (on kind self.old) i fresh)) }
        ensures other { on (crossing kind) self.new ≡ on (crossing kind) self.old }
    {
        let record = Record {
            standing: Standing::Open,
            ..self.at(kind, i)
        };
        self.put(kind, i, record);
    }
}
