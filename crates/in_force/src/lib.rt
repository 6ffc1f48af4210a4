// The figures in force and the waiting copy, and what a frame makes of them (01, "The bus"; Change 1).
#![tactic(auto)]

ghost use Rattle.std.specs.Prelude.{◌≡◌};
ghost use Rattle.register.specs.Number.{APPLY, RST};
ghost use Rattle.in_force.specs.InForce.{zero_steps, offered, setup_written, setup_acted};
ghost use Rattle.in_force.specs.Fits.{fits};

use figures::Calibration;
use refusal::Refusal;

// The figures in force, SZ as last written among them; the waiting copy, whose own SZ is not looked at; and the station.
#[repr(C)]
#[derive(Clone, Copy)]
pub struct Setup {
    pub figures: Calibration,
    pub copy: Calibration,
    pub station: u8,
}

// The steps that are written to SZ.
fn zero_steps(x: f32) -> i64
    ensures { result ≡ zero_steps x }
{
    binary32::received::count(register::range_of(register::SZ), x)
}

// Part by part, since the compiler asks a board for memcpy to assign them as one (include/converter.h names no symbol).
fn put(to: &mut Calibration, figures: &Calibration)
    ensures { to.new ≡ figures.now }
{
    to.cell = figures.cell;
    to.temperature = figures.temperature;
    to.linearity = figures.linearity;
    to.system = figures.system;
    to.filter = figures.filter;
}

impl Setup {
    // The copy as it would be in force: with no points past the count, beside the SZ in force.
    pub fn offered(&self) -> Calibration
        ensures { result ≡ offered self.now.figures.system.sz self.now.copy }
    {
        let mut figures = Calibration {
            cell: self.copy.cell,
            temperature: self.copy.temperature,
            linearity: self.copy.linearity,
            system: self.copy.system,
            filter: self.copy.filter,
        };
        panel::unused_zero(&mut figures);
        figures.system.sz = self.figures.system.sz;
        figures
    }

    // 99: the copy is put in force, if a sheet with its figures would be accepted.
    #[tactic(auto, using(refusal::proofs::Numbers::number_above), unfolding(crate::specs::InForce::copy_fits, crate::specs::InForce::applied, crate::specs::InForce::setup_acted))]
    pub fn apply(&mut self) -> Result<(), Refusal>
        ensures outcome { result ≡ fits self.old }
        ensures setup { self.new ≡ setup_acted self.old APPLY }
    {
        let figures = self.offered();
        sheet::judge(figures).map_err(|_| Refusal::UnfitCopy)?;
        put(&mut self.figures, &figures);
        Ok(())
    }

    // RST: the copy is set back to the figures in force.
    #[tactic(auto, unfolding(crate::specs::InForce::setup_acted))]
    pub fn restart(&mut self)
        ensures { self.new ≡ setup_acted self.old RST }
    {
        put(&mut self.copy, &self.figures);
        panel::unused_zero(&mut self.copy);
    }

    // SZ is in force at once; any other figure goes to the copy.
    #[tactic(auto, unfolding(crate::specs::InForce::setup_written))]
    pub fn write(&mut self, register: u32, x: f32)
        ensures { self.new ≡ setup_written self.old register x }
    {
        if register == register::SZ {
            self.figures.system.sz = zero_steps(x);
        } else if panel::is_figure(register) {
            panel::write(&mut self.copy, register, x);
        }
    }
}
