//! Documents that are upgraded together.
ghost use Rattle.std.specs.Prelude.{◌≡◌, Ok, IfOk, IfErr, map};
ghost use Rattle.js_doc.specs.Seen.{value_of};
ghost use Rattle.js_upgrade.specs.Seen.{source_of};
ghost use Rattle.js_upgrade_cli.specs.Upgraded.{reported_kind, upgraded_or_refused};
ghost use Rattle.js_upgrade_cli.specs.code.Seen.{RefusesWith, reported_fault};

use js_doc::Doc;
use js_output::{Fault, Refusal, RefusalKind};
use js_upgrade::{SourceDocument, UpgradeFault, UpgradeFaultKind, upgrade_all};
use std::alloc::Global;

/// The documents as ones of 2020-12, in order.
///
/// # Errors
/// The first fault, as `upgrade_all` says; `Memory` at any point.
pub(crate) fn upgraded_or_refused(
    alloc: Global,
    sources: &[SourceDocument],
) -> Result<Vec<Doc>, Fault>
    ensures ok { IfOk result (λ v. upgraded_or_refused (map source_of sources.now) ≡ Ok (map value_of v.items)) }
    ensures err { IfErr result (RefusesWith (upgraded_or_refused (map source_of sources.now))) }
{
    match upgrade_all(alloc, sources) {
        Ok(documents) => Ok(documents),
        Err(fault) => Err(reported_fault(fault)),
    }
}

fn reported_fault(fault: UpgradeFault) -> Fault
    ensures { result ≡ reported_fault fault.kind fault }
{
    let UpgradeFault {
        document,
        place,
        kind,
    } = fault;
    match kind {
        UpgradeFaultKind::Memory => Fault::Memory,
        _ => Fault::Refused(Refusal {
            document,
            place,
            kind: reported_kind(kind),
        }),
    }
}

// A refusal has one name, whoever refuses.
fn reported_kind(kind: UpgradeFaultKind) -> RefusalKind
    ensures { result ≡ reported_kind kind }
{
    match kind {
        UpgradeFaultKind::Memory => RefusalKind::Memory,
        UpgradeFaultKind::TooManyDocuments => RefusalKind::TooManyDocuments,
        UpgradeFaultKind::UnknownDialect => RefusalKind::UnknownDialect,
        UpgradeFaultKind::BadKeyword => RefusalKind::BadKeyword,
        UpgradeFaultKind::UriTooLong => RefusalKind::UriTooLong,
        UpgradeFaultKind::BadId => RefusalKind::BadId,
        UpgradeFaultKind::DuplicateUri => RefusalKind::DuplicateUri,
        UpgradeFaultKind::BadReference => RefusalKind::BadReference,
        UpgradeFaultKind::Unresolved => RefusalKind::Unresolved,
    }
}
