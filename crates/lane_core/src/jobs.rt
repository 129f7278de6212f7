ghost use Rattle.std.specs.Prelude.{◌≡◌, ◌≢◌, Some, true, false};
ghost use Rattle.lane_core.specs.Works.{IsJobAt, HasJob, IsOneOrNone, OfJob, IsPreparedAt};

use crate::work::Job;
use bucket_ids::Bucket;
use document_ids::DocId;
use messages::Operation;

/// The place of the job of a line, which is there.
pub fn place_of(jobs: &[Job], line: u32) -> usize
    requires { HasJob line jobs.now }
    ensures { OfJob (λ j. j.line ≡ line) jobs.now result }
{
    let mut at = 0;
    while at < jobs.len() {
        if jobs[at].line == line {
            return at;
        }
        at += 1;
    }
    unreachable!()
}

/// The line of the first operation that a distributor began.
pub fn first_of(jobs: &[Job], distributor: u8) -> Option<u32>
    ensures { IsOneOrNone (λ j. j.distributor ≡ distributor) jobs.now result }
{
    let mut at = 0;
    while at < jobs.len() {
        if jobs[at].distributor == distributor {
            return Some(jobs[at].line);
        }
        at += 1;
    }
    None
}

/// Whether the operation is of the document.
fn is_of(operation: &Operation, id: &DocId) -> bool
    ensures its { result ≡ true → operation.now.id ≡ id.now }
    ensures other { result ≡ false → operation.now.id ≢ id.now }
{
    operation.id.text() == id.text()
}

/// The line of the operation of a document.
pub fn holder_of(jobs: &[Job], id: &DocId) -> Option<u32>
    ensures { IsOneOrNone (λ j. j.operation.id ≡ id.now) jobs.now result }
{
    let mut at = 0;
    while at < jobs.len() {
        if is_of(jobs[at].operation.operation(), id) {
            return Some(jobs[at].line);
        }
        at += 1;
    }
    None
}

/// The line of the first operation of a distributor that is prepared in a row.
pub fn prepared_in(jobs: &[Job], distributor: u8, row: Bucket) -> Option<u32>
    ensures { IsOneOrNone (IsPreparedAt distributor row) jobs.now result }
{
    let mut at = 0;
    while at < jobs.len() {
        if jobs[at].distributor == distributor && jobs[at].row == Some(row) {
            return Some(jobs[at].line);
        }
        at += 1;
    }
    None
}
