//! Where the words form a command, its files and its goal have their meaning, and nothing fails, a call
//! ends with yes or no, or runs out of memory. There is one law for the call, and one for each command:
//! the others stand in `complete_questions`, `complete_scripts` and `complete_tables`.

ghost use Rattle.std.specs.Prelude.{◌≡◌, ℕ, List, Result, Ok};
ghost use Rattle.dep_model.specs.declared.memory.OutOfMemory.{OutOfMemory};
ghost use Rattle.desk_outside.specs.Files.{Files};
ghost use Rattle.desk_outside.specs.FreeNames.{may_be_free};
ghost use Rattle.desk_responses.specs.declared.status.Status.{Status};
ghost use Rattle.desk_cli.specs.Desk.{Desk, SinkInCall, source_in_call};
ghost use Rattle.desk_delivery.specs.Outcomes.{destinations_in_call, folder_in_call};
ghost use Rattle.destinations.specs.declared.destination.Destination.{Destination};
ghost use Rattle.desk_laws.specs.Completeness.{IsYesOrNo, IsAnsweredBy, FailsNowhere};
ghost use Rattle.desk_laws.specs.AnsweredCalls.{ImpliesIsAnswered, CheckProofIsAnswered, CheckRowsIsAnswered, CheckJoinIsAnswered, CoverIsAnswered, CoverCanonicalIsAnswered, KeysIsAnswered, SynthesizeIsAnswered, HelpIsAnsweredHelp, HelpIsAnsweredLong, HelpIsAnsweredDashH, HelpIsAnsweredVersion};

use desk_outside::{FileSource, Folder};

/// Where nothing fails, a call whose words are answered over the files ends with yes or no, or runs
/// out of memory.
pub fn answered_calls_end<F: FileSource, D: Folder, G: Folder>()
    ensures law { (words : List (List ℕ)) (files : Files) (source after : F)
        (sink notices : SinkInCall)
        (old new : List (Destination D)) (folder filled : G) (result : Result Status OutOfMemory)
        → Desk words
        (source_in_call F.FileSource source after)
        sink notices (destinations_in_call D.state old new)
        (folder_in_call G.state folder filled) result
        → FailsNowhere files
        (source_in_call F.FileSource source after)
        sink (destinations_in_call D.state old new)
        (folder_in_call G.state folder filled)
        → IsAnsweredBy (may_be_free (G.state folder).contents) files words
        → (status : Status) → result ≡ Ok status → IsYesOrNo status }
{}

/// Where the schema file means a schema, the other files and the goal have their meaning, and no limit is met:
/// `implies`, `check proof`, `check rows`, `check join`, `cover`, `cover canonical`, `keys` and `synthesize` are
/// answered; and `help`, `--help`, `-h` and `--version` over any files.
pub fn requests_are_answered()
    ensures implies { ImpliesIsAnswered }
    ensures check_proof { CheckProofIsAnswered }
    ensures check_rows { CheckRowsIsAnswered }
    ensures check_join { CheckJoinIsAnswered }
    ensures cover { CoverIsAnswered }
    ensures canonical_cover { CoverCanonicalIsAnswered }
    ensures keys { KeysIsAnswered }
    ensures synthesize { SynthesizeIsAnswered }
    ensures help { HelpIsAnsweredHelp }
    ensures long_help { HelpIsAnsweredLong }
    ensures dash_h { HelpIsAnsweredDashH }
    ensures version { HelpIsAnsweredVersion }
{}
