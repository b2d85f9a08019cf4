// An accepted sheet.
ghost use Rattle.std.specs.Prelude.{◌≤◌};
ghost use Rattle.sheet.specs.Limits.{InRange};

use crate::units::Cycles;

// The thirteen timings in cycles, in the order of a sheet, named as the DDR3 standard names them without their t. Made by `Sheet::new`; each is 1 to 255 and WL is at most RL, for good. One fact a timing, so that each is at hand under its name.
#[derive(Clone, Copy, Debug, PartialEq, Eq)]
pub struct Sheet {
    pub rcd: Cycles,
    pub rp: Cycles,
    pub ras: Cycles,
    pub rc: Cycles,
    pub rrd: Cycles,
    pub faw: Cycles,
    pub ccd: Cycles,
    pub rtp: Cycles,
    pub wr: Cycles,
    pub wtr: Cycles,
    pub rl: Cycles,
    pub wl: Cycles,
    pub burst: Cycles,
    ghost rcd_in: { InRange rcd.0 },
    ghost rp_in: { InRange rp.0 },
    ghost ras_in: { InRange ras.0 },
    ghost rc_in: { InRange rc.0 },
    ghost rrd_in: { InRange rrd.0 },
    ghost faw_in: { InRange faw.0 },
    ghost ccd_in: { InRange ccd.0 },
    ghost rtp_in: { InRange rtp.0 },
    ghost wr_in: { InRange wr.0 },
    ghost wtr_in: { InRange wtr.0 },
    ghost rl_in: { InRange rl.0 },
    ghost wl_in: { InRange wl.0 },
    ghost burst_in: { InRange burst.0 },
    ghost latencies: { wl.0 ≤ rl.0 },
}
