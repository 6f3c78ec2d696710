// Values of a sheet that are Valid, as those of one that loads.
ghost use Rattle.sigma.specs.Instance.{instance_with};
ghost use Rattle.sigma.specs.Valid.{Valid};
ghost use Rattle.instance.specs.Once.{valid_once};

use types::Header;

// The values of a sheet: its fixed fields, its entries and its statement. None of the refusals 4 to 8, 10 and 11 applies to them.
#[derive(Clone, Copy)]
pub struct Sheet {
    pub header: Header,
    pub entries: [[u32; 8]; 8],
    pub statement: [u32; 8],
    pub ghost valid: { Valid (instance_with header entries statement) } by { valid_once (instance_with header entries statement) },
}
