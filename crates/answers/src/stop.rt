// Why no more cases are answered.
use std::io;

// The stream ends here or is broken, or reading or printing failed.
#[derive(Debug, Drop)]
pub enum Stop {
    Ended,
    Failed(io::Error),
}

impl From<io::Error> for Stop {
    fn from(error: io::Error) -> Stop {
        Stop::Failed(error)
    }
}
