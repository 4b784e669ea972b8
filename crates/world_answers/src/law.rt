//! Laws of the definitions. Each function does nothing: its contract is the law.

ghost use Rattle.std.specs.Prelude.{◌≡◌, ℕ, List, Result};
ghost use Rattle.csv_source.specs.Tables.{SourceOf};
ghost use Rattle.server_lines.specs.Devices.{DevicesOf};
ghost use Rattle.server_lines.specs.declared.fault.ServeFault.{ServeFault};
ghost use Rattle.server.specs.Clients.{ClientOf};
ghost use Rattle.world_answers.specs.Lines.{AreDirect, IsAnswer, IsClientOf};
ghost use Rattle.world_answers.specs.Services.{ServiceOf};

use gq_check::one_verdict;

/// A line has at most one answer by a service.
pub fn one_answer()
    ensures { (s : ServiceOf) (line text other : List ℕ)
        → IsAnswer s line text → IsAnswer s line other → text ≡ other }
{
    one_verdict();
}

/// The lines that are served in a client's session of a service have the text of direct execution each, whoever runs the batches.
pub fn lines_are_direct()
    ensures { (s : ServiceOf) (c later : ClientOf SourceOf) (d : DevicesOf)
        (result : Result ℕ ServeFault) → IsClientOf s c → AreDirect s c later d result }
{}
