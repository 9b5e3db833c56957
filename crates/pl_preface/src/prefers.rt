use crate::asked::Asked;
use crate::problem::Problem;
use pl_model::Model;
use pl_msg::ParseFault;
use pl_prefs::{Prefer, read_prefer};
use std::alloc::{AllocError, Global};

impl Asked for Prefer {
    ghost use Rattle.pl_prefs.specs.Prefers.{IsPreferOf};
    ghost use Rattle.pl_preface.specs.PreferLines.{prefer_in};

    ghost meant = { prefer_in };

    ghost fits = { IsPreferOf };

    fn read(
        alloc: Global,
        model: &Model,
        line: &[u8],
    ) -> Result<Result<Prefer, Problem>, AllocError> {
        match read_prefer(alloc, model, line) {
            Ok(prefer) => Ok(Ok(prefer)),
            Err(ParseFault::BadLine) => Ok(Err(Problem::BadLine)),
            Err(ParseFault::UnknownName) => Ok(Err(Problem::UnknownName)),
            Err(ParseFault::OutOfRange) => Ok(Err(Problem::OutOfRange)),
            Err(ParseFault::Memory) => Err(AllocError),
        }
    }
}
