//! Where its files have their meaning and nothing fails, a call for a page ends with yes, or runs out of memory.

ghost use Rattle.std.specs.Prelude.{◌≡◌, ℕ, List, Result, Ok};
ghost use Rattle.dep_model.specs.declared.memory.OutOfMemory.{OutOfMemory};
ghost use Rattle.desk_outside.specs.Files.{Files};
ghost use Rattle.desk_responses.specs.declared.status.Status.{Status};
ghost use Rattle.desk_responses.specs.declared.status.Status.TheVariants.{Yes};
ghost use Rattle.desk_cli.specs.Desk.{Desk, SinkInCall, source_in_call};
ghost use Rattle.desk_delivery.specs.Outcomes.{destinations_in_call, folder_in_call};
ghost use Rattle.destinations.specs.declared.destination.Destination.{Destination};
ghost use Rattle.desk_laws.specs.Completeness.{FailsNowhere, IsAnsweredYes};
ghost use Rattle.desk_laws.specs.AnsweredPages.{ReportIsAnsweredSchema, ReportIsAnsweredPlan};

use desk_outside::{FileSource, Folder};

/// `report` is answered by yes where the schema file means a schema and the plan file, if one is named, a plan: what
/// a limit forbids is refused on the page.
pub fn report_is_answered()
    ensures schema { ReportIsAnsweredSchema }
    ensures plan { ReportIsAnsweredPlan }
{}

/// Where nothing fails, a call whose words are answered by yes over the files ends with yes, or runs out of memory.
pub fn calls_answered_by_yes_end<F: FileSource, D: Folder, G: Folder>()
    ensures law { (words : List (List ℕ)) (files : Files) (source after : F)
        (sink notices : SinkInCall)
        (old new : List (Destination D)) (folder filled : G) (result : Result Status OutOfMemory)
        → Desk words
        (source_in_call F.FileSource source after)
        sink notices (destinations_in_call D.state old new)
        (folder_in_call G.state folder filled) result
        → FailsNowhere files
        (source_in_call F.FileSource source after)
        sink (destinations_in_call D.state old new)
        (folder_in_call G.state folder filled)
        → IsAnsweredYes files words
        → (status : Status) → result ≡ Ok status → status ≡ Yes }
{}
