// What a record keeps to be sent: the widths of its components, and two rules.
ghost use Rattle.std.specs.Prelude.{◌≡◌, ◌<◌, ◌&&◌, Decides, OnOk};
ghost use Rattle.record.specs.Rules.{fits_signed, horizontals_fit, verticals_fit, counts_fit, codes_fit, fits_widths, Within, intra_kept, skipped_kept, keeps_rules, checked};

use crate::Record;
use fault::Fault;

// Refuses a record with a component that does not fit its width, then one that breaks a rule.
pub fn check_record(record: &Record) -> Result<(), Fault>
    ensures answer { result ≡ checked «record».now }
    ensures within { OnOk result (Within «record».now) }
{
    if !record.fits_widths() {
        return Err(Fault::ComponentWidth);
    }
    if !record.keeps_rules() {
        return Err(Fault::RecordRule);
    }
    Ok(())
}

impl Record {
    // Whether every component fits its width.
    #[tactic(auto, using(crate::proofs::Widths::within, crate::proofs::Widths::passes), unfolding(crate::specs::Rules::fits_widths))]
    pub fn fits_widths(&self) -> bool
        ensures answer { result ≡ fits_widths self.now }
        ensures within { Decides result (Within self.now) }
    {
        self.horizontals_fit() && self.verticals_fit() && self.counts_fit() && self.codes_fit()
    }

    fn horizontals_fit(&self) -> bool
        ensures { result ≡ horizontals_fit self.now }
    {
        fits::<13>(self.mv000)
            && fits::<13>(self.mv010)
            && fits::<13>(self.mv100)
            && fits::<13>(self.mv110)
    }

    fn verticals_fit(&self) -> bool
        ensures { result ≡ verticals_fit self.now }
    {
        fits::<9>(self.mv001)
            && fits::<9>(self.mv011)
            && fits::<9>(self.mv101)
            && fits::<9>(self.mv111)
    }

    // Any u8 is at most 255. That it is tested tells the proof so, here and below.
    fn counts_fit(&self) -> bool
        ensures { result ≡ counts_fit self.now }
    {
        self.num_other_bits <= 127 && self.num_mv_bits <= 255 && self.num_coef_bits <= 16383
    }

    fn codes_fit(&self) -> bool
        ensures { result ≡ codes_fit self.now }
    {
        self.motion_type <= 3
            && self.q_scale_code <= 31
            && self.mb_vert_field_sel <= 15
            && self.coded_block_pattern <= 255
    }

    // Whether the record keeps the rules on mb_intra and skipped_mb.
    #[tactic(auto, unfolding(crate::specs::Rules::keeps_rules))]
    pub fn keeps_rules(&self) -> bool
        ensures { result ≡ keeps_rules self.now }
    {
        self.intra_kept() && self.skipped_kept()
    }

    fn intra_kept(&self) -> bool
        ensures { result ≡ intra_kept self.now }
    {
        !(self.mb_intra && (self.mb_mfwd || self.mb_mbwd || self.mb_pattern))
    }

    fn skipped_kept(&self) -> bool
        ensures { result ≡ skipped_kept self.now }
    {
        !(self.skipped_mb
            && (self.mb_quant || self.mb_pattern || self.mb_intra || self.slice_start_flag))
    }
}

// Whether a number fits WIDTH bits in two's complement.
#[tactic(auto, using(crate::proofs::Signs::power_small))]
fn fits<const WIDTH: u32>(x: i16) -> bool
    requires some { 0 < WIDTH }
    requires few { WIDTH < 16 }
    ensures { result ≡ fits_signed WIDTH x }
{
    let half = 1 << (WIDTH - 1);
    -half <= x && x < half
}
