//! What holds of ports: a function that does nothing, whose contract is a law.

ghost use Rattle.std.specs.Prelude.{◌≡◌};
ghost use Rattle.outside.specs.Port.{most_connections};
ghost use Rattle.outside.specs.declared.port.TheConstants.{MOST_CONNECTIONS};

/// States that the limit of the code is that of the definitions.
pub fn limits_agree()
    ensures { MOST_CONNECTIONS ≡ most_connections }
{}
