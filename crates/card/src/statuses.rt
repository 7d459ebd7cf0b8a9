// The numbers of statuses.
ghost use Rattle.std.specs.Prelude.{◌≡◌};
ghost use Rattle.std.specs.Option.{ok_or};
ghost use Rattle.card.specs.Given.{status_of};
ghost use Rattle.card.specs.Numbers.{status_number};
ghost use Rattle.card.specs.declared.fields.Unlawful.TheVariants as unlawful;

use crate::{Status, Unlawful};

// The number that a status is given and told by.
impl From<Status> for u8 {
    ghost from_gives = { λ status number. number ≡ status_number status };

    fn from(status: Status) -> u8 {
        match status {
            Status::Updated => 1,
            Status::NotUpdated => 2,
            Status::NotAllowed => 3,
        }
    }
}

// From a number as it comes from outside, which may be no status.
impl TryFrom<u8> for Status {
    type Error = Unlawful;

    ghost try_from_gives = { λ number status. status ≡ ok_or (status_of number) unlawful.Status };

    fn try_from(number: u8) -> Result<Status, Unlawful> {
        match number {
            1 => Ok(Status::Updated),
            2 => Ok(Status::NotUpdated),
            3 => Ok(Status::NotAllowed),
            _ => Err(Unlawful::Status),
        }
    }
}
