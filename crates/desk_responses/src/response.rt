ghost use Rattle.std.specs.Prelude.{◌≡◌, IsSome};
ghost use Rattle.desk_responses.specs.declared.status.Status.TheVariants.{Yes};

use crate::Status;
use dep_model::OutOfMemory;
use named_tables::ChosenTables;

/// A folder that tables are to have for themselves: its name, and the statements that make them.
#[derive(Debug, Drop)]
pub struct OwnFolder {
    pub name: Vec<u8>,
    pub script: Vec<u8>,
}

/// A status, the text that goes with it, and tables, which only yes has: for the destinations, or for a
/// folder of their own.
#[derive(Debug, Drop)]
pub struct Response {
    pub status: Status,
    pub text: Vec<u8>,
    pub tables: Option<ChosenTables>,
    pub own: Option<OwnFolder>,
    pub ghost yes: { IsSome tables → status ≡ Yes },
}

impl Response {
    ghost use Rattle.named_tables.specs.Tables.{table_values};
    ghost use Rattle.desk_responses.specs.ResponseValues.{Says, RespondsWithTables, in_own_folder};
    ghost use Rattle.desk_responses.specs.Responses.{own_folder_value, response_value};

    /// A status with a text.
    pub fn with_text(status: Status, text: Vec<u8>) -> Response
        ensures says { Says status text.items (response_value result) }
    {
        Response {
            status,
            text,
            tables: None,
            own: None,
        }
    }

    /// Yes with a text, and these tables for the destinations.
    pub fn with_tables(text: Vec<u8>, tables: ChosenTables) -> Response
        ensures gives { RespondsWithTables text.items (table_values tables)
            (response_value result) }
    {
        Response {
            status: Status::Yes,
            text,
            tables: Some(tables),
            own: None,
        }
    }

    /// The same response, where its tables, if it has any, are for a folder of their own.
    pub fn in_own_folder(self, folder: OwnFolder) -> Response
        ensures gives { response_value result
            ≡ in_own_folder (own_folder_value folder) (response_value self) }
    {
        let Response {
            status,
            text,
            tables,
            own: _,
        } = self;
        match tables {
            None => Response::with_text(status, text),
            Some(tables) => Response {
                status,
                text,
                tables: Some(tables),
                own: Some(folder),
            },
        }
    }
}

/// Why a command ends early.
#[derive(Debug, Drop)]
pub enum EarlyExit {
    /// With this response.
    Answered(Response),
    /// Out of memory.
    OutOfMemory,
}

impl EarlyExit {
    ghost use Rattle.std.specs.Prelude.{ℕ, List, IfOk};
    ghost use Rattle.desk_responses.specs.ResponseValues.{Says};
    ghost use Rattle.desk_responses.specs.Responses.{ExitsAs};

    /// With a status and a text, or out of memory where the text is that error.
    pub fn with_text(status: Status, text: Result<Vec<u8>, OutOfMemory>) -> EarlyExit
        ensures says { (t : List ℕ) → IfOk text (λ v. v.items ≡ t) → ExitsAs (Says status t) result }
    {
        match text {
            Ok(text) => EarlyExit::Answered(Response::with_text(status, text)),
            Err(OutOfMemory) => EarlyExit::OutOfMemory,
        }
    }
}

impl From<OutOfMemory> for EarlyExit {
    ghost use Rattle.std.specs.Prelude.{◌≡◌};
    ghost use Rattle.desk_responses.specs.declared.response.EarlyExit.TheVariants.{OutOfMemory};

    ghost from_gives = { λ _ exit. exit ≡ OutOfMemory };

    fn from(_error: OutOfMemory) -> Self {
        EarlyExit::OutOfMemory
    }
}
