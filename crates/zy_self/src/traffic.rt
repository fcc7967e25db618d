//! The capture of generated traffic.
ghost use Rattle.std.specs.Prelude.{◌≡◌, IfOk};
ghost use Rattle.zy_gen.specs.Traffic.{IsTraffic};
ghost use Rattle.zy_command_line.specs.Range.{IsMakeable};
ghost use Rattle.zy_self.specs.Tested.{traffic_bytes};

use std::alloc::Global;
use zy_base::{Blob, NoMemory};
use zy_command_line::Traffic;
use zy_gen::generate;

/// Makes the capture of some traffic, which is within the bounds of generated traffic.
pub fn capture_of(alloc: Global, traffic: Traffic) -> Result<Blob, NoMemory>
    requires makeable { IsMakeable traffic }
    ensures value { IfOk result (λ capture. capture ≡ traffic_bytes traffic) }
    ensures traffic { IsTraffic traffic.number traffic.conns traffic.commands }
{
    generate(alloc, traffic.number, traffic.conns, traffic.commands)
}
