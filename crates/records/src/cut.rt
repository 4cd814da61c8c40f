// The bytes of a job, cut into records.
ghost use Rattle.std.specs.Prelude.{◌≡◌};
ghost use Rattle.records.specs.Jobs.{records_in, left_over};

// The records of a job, and how many bytes are left over after them.
#[derive(Clone, Copy)]
pub struct Cut<'a> {
    pub records: &'a [[u8; 8]],
    pub left: usize,
}

impl<'a> Cut<'a> {
    pub fn of(job: &'a [u8]) -> Cut<'a>
        ensures records { result.records.now ≡ records_in job.now }
        ensures left { result.left ≡ left_over job.now }
    {
        let (records, torn) = job.as_chunks::<8>();
        Cut {
            records,
            left: torn.len(),
        }
    }
}
