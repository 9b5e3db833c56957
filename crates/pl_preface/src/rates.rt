use crate::asked::Asked;
use crate::problem::Problem;
use pl_model::Model;
use pl_msg::ParseFault;
use pl_rate::{Rate, read_rate};
use std::alloc::{AllocError, Global};

impl Asked for Rate {
    ghost use Rattle.pl_rate.specs.Rates.{IsRateOf};
    ghost use Rattle.pl_preface.specs.RateLines.{rate_in};

    ghost meant = { rate_in };

    ghost fits = { IsRateOf };

    fn read(
        alloc: Global,
        model: &Model,
        line: &[u8],
    ) -> Result<Result<Rate, Problem>, AllocError> {
        match read_rate(alloc, model, line) {
            Ok(rate) => Ok(Ok(rate)),
            Err(ParseFault::BadLine) => Ok(Err(Problem::BadLine)),
            Err(ParseFault::UnknownName) => Ok(Err(Problem::UnknownName)),
            Err(ParseFault::OutOfRange) => Ok(Err(Problem::OutOfRange)),
            Err(ParseFault::Memory) => Err(AllocError),
        }
    }
}
