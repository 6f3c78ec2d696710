// What all lines of a ledger share: the fixed fields of its product statements, and the tests of 5, 6, 8 and 10.
ghost use Rattle.std.specs.Prelude.{◌≡◌};
ghost use Rattle.refusals.specs.Number.{refused_with};
ghost use Rattle.rules.specs.Rule.{lowest};
ghost use Rattle.ledgers.specs.Check.{base_rules};
ghost use Rattle.ledgers.specs.Refusals.{product_header};

use instance::test_header;
use ledgers::Base;
use modular::some_non_element;
use refusals::Refusal;
use types::Header;

// The fixed fields of every product line's sheet.
pub fn product_header(base: Base) -> Header
    ensures { result ≡ product_header base }
{
    Header {
        kind: 1,
        modulus: base.modulus,
        order: base.order,
        challenges: base.challenges,
        rows: 2,
        columns: 3,
    }
}

// Tests what all lines share, which is refused with 5, 6, 8 or 10.
pub fn test_base(base: Base) -> Result<(), Refusal>
    ensures { refused_with result ≡ lowest (base_rules base) }
{
    let h = product_header(base);
    test_header(h)?;
    if some_non_element(h, [base.g, base.h, 0, 0, 0, 0, 0, 0], 2) {
        return Err(Refusal::Entry);
    }
    Ok(())
}
