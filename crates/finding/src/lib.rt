// Where a number stands in a run of records, which decides the rule that a slip's code names. The run is as long as a chain, so eight
// records are compared at once; what is passed so is as far as sixteen bits tell, and the last few are compared one by one.

#![tactic(auto)]

ghost use Rattle.std.specs.Prelude.{◌≡◌, ◌+◌, ◌≤◌, length};
ghost use Rattle.finding.specs.Place.{place_of, some_of, Passed};

// Whether one of eight records is wanted. They are written out, so that the compiler compares all eight at once.
fn among(records: &[u16], at: usize, wanted: u16) -> bool
    requires { at + 8 ≤ length records.now }
    ensures { result ≡ some_of records.now at 7 wanted }
{
    (records[at] == wanted)
        | (records[at + 1] == wanted)
        | (records[at + 2] == wanted)
        | (records[at + 3] == wanted)
        | (records[at + 4] == wanted)
        | (records[at + 5] == wanted)
        | (records[at + 6] == wanted)
        | (records[at + 7] == wanted)
}

// A place before which no record is wanted, and at most seven records before the one that is or before the end. The library's `position`
// would compare record by record.
fn passed(records: &[u16], wanted: u16) -> usize
    ensures { Passed records.now wanted result }
{
    let mut i = 0;
    while 8 <= records.len() - i {
        if among(records, i, wanted) {
            return i;
        }
        i += 8;
    }
    i
}

// The first place of the wanted number, if it stands in the run. A number of more than sixteen bits is in no record.
pub fn place(records: &[u16], wanted: u64) -> Option<usize>
    ensures { result ≡ place_of records.now wanted }
{
    let wanted = u16::try_from(wanted).ok()?;
    for i in passed(records, wanted)..records.len() {
        if records[i] == wanted {
            return Some(i);
        }
    }
    None
}
