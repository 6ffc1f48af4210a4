// The figures on the bus (Change 1): which figure a register is, how it reads, and the figures with one of them written.
#![tactic(auto)]

ghost use Rattle.std.specs.Prelude.{◌≡◌, nat_abs};
ghost use Rattle.integers.specs.Within.{◌within◌};
ghost use Rattle.figures.specs.Unused.{used, unused_zero};
ghost use Rattle.register.specs.Register.{range_of};
ghost use Rattle.panel.specs.Figure.{figure_at, is_figure, figure_float, written};

use figures::{Calibration, LinearityPoint, Point, TemperaturePoint};
use register::{
    CGAI, CLK, CLK_LAST, CLN, CLX, CLX_LAST, CMAX, CMIN, COFS, CT, CT_LAST, CTG, CTG_LAST, CTN,
    CTO, CTO_LAST, FFLV, FFST, SGAI, SMAX, SMIN, SOFS,
};

// The figure at a register; 0 at any other.
#[tactic(auto, unfolding(crate::proofs::Figures::figures))]
fn figure_at(c: &Calibration, register: u32) -> i64
    ensures { result ≡ figure_at c.now register }
{
    match register {
        CGAI => c.cell.cgai,
        COFS => c.cell.cofs,
        CMIN => c.cell.cmin,
        CMAX => c.cell.cmax,
        CLN => c.linearity.cln as i64,
        CLX..=CLX_LAST => c.linearity.points[(register - CLX) as usize].clx,
        CLK..=CLK_LAST => c.linearity.points[(register - CLK) as usize].clk,
        SGAI => c.system.sgai,
        SOFS => c.system.sofs,
        SMIN => c.system.smin,
        SMAX => c.system.smax,
        FFLV => c.filter.fflv,
        FFST => c.filter.ffst,
        CTN => c.temperature.ctn as i64,
        CT..=CT_LAST => c.temperature.points[(register - CT) as usize].ct,
        CTG..=CTG_LAST => c.temperature.points[(register - CTG) as usize].ctg,
        CTO..=CTO_LAST => c.temperature.points[(register - CTO) as usize].cto,
        _ => 0,
    }
}

// Is it a figure's register?
#[tactic(auto, unfolding(crate::specs::Figure::is_figure))]
pub fn is_figure(register: u32) -> bool
    ensures { result ≡ is_figure register }
{
    matches!(
        register,
        CGAI..=COFS
            | CMIN..=CMAX
            | CLN..=CLX_LAST
            | CLK..=CLK_LAST
            | SGAI..=SOFS
            | SMIN..=SMAX
            | FFLV..=FFST
            | CTN..=CTO_LAST
    )
}

// It reads as its float, ÷ its own scale.
pub fn figure_float(c: &Calibration, register: u32) -> f32
    requires { (figure_at c.now register) within (nat_abs (range_of register).most) }
    ensures { result ≡ figure_float c.now register }
{
    let figure = figure_at(c, register);
    match register::range_of(register).shift {
        28 => binary32::sent::float_of_parts(figure),
        16 => binary32::sent::float_of_steps(figure),
        _ => figure as f32,
    }
}

// Writes x to the figure at a register, as that counts; there is none at any other.
pub fn write(c: &mut Calibration, register: u32, x: f32)
    ensures { c.new ≡ written c.old register x }
{
    let z = binary32::received::count(register::range_of(register), x);
    // As slices, whose lengths every arm's proof then has.
    let temperatures = &mut c.temperature.points[..];
    let linearities = &mut c.linearity.points[..];
    match register {
        CGAI => c.cell.cgai = z,
        COFS => c.cell.cofs = z,
        CMIN => c.cell.cmin = z,
        CMAX => c.cell.cmax = z,
        CLN => c.linearity.cln = z as u8,
        CLX..=CLX_LAST => linearities[(register - CLX) as usize].clx = z,
        CLK..=CLK_LAST => linearities[(register - CLK) as usize].clk = z,
        SGAI => c.system.sgai = z,
        SOFS => c.system.sofs = z,
        SMIN => c.system.smin = z,
        SMAX => c.system.smax = z,
        FFLV => c.filter.fflv = z,
        FFST => c.filter.ffst = z,
        CTN => c.temperature.ctn = z as u8,
        CT..=CT_LAST => temperatures[(register - CT) as usize].ct = z,
        CTG..=CTG_LAST => temperatures[(register - CTG) as usize].ctg = z,
        CTO..=CTO_LAST => temperatures[(register - CTO) as usize].cto = z,
        _ => {}
    }
}

// The points of a table past its count.
trait Cleared: Point {
    // Kept: no `fill`, of which a compiler makes a call of memset, whose stack the board would have to add to its own.
    fn clear(points: &mut [Self], count: usize)
        ensures { points.new ≡ used Self.unused count points.old }
    {
        for i in 0..points.len() {
            if count <= i {
                points[i] = Self::unused();
            }
        }
    }
}

impl Cleared for TemperaturePoint {}

impl Cleared for LinearityPoint {}

// "0 in unused points": past the count.
#[tactic(auto, unfolding(figures::specs::Unused::unused_zero))]
pub fn unused_zero(c: &mut Calibration)
    ensures { c.new ≡ unused_zero c.old }
{
    TemperaturePoint::clear(&mut c.temperature.points, c.temperature.ctn as usize);
    LinearityPoint::clear(&mut c.linearity.points, c.linearity.cln as usize);
}
