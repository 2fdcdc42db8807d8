//! The laws of the field, each as the contract of a function that does nothing.

ghost use Rattle.gf_65536.specs.Laws.{SumLaws, ProductLaws, OnlyProduct, PowerLaws, OrderOfTwo};

/// The sum is associative and commutative, 0 is neutral, and each element is its own opposite.
pub fn sum_laws()
    ensures { SumLaws }
{}

/// The product is associative and commutative, distributes over the sum, has the neutral element 1 and no divisors of zero,
/// and each element but 0 has one inverse.
pub fn product_laws()
    ensures { ProductLaws }
{}

/// The product is the one product of polynomials modulo x^16 + x^12 + x^3 + x + 1.
pub fn only_product()
    ensures { OnlyProduct }
{}

/// Powers add their exponents, and a power of a power multiplies them.
pub fn power_laws()
    ensures { PowerLaws }
{}

/// The element 2 has the order 65,535, so its powers at different exponents below that differ.
pub fn order_of_two()
    ensures { OrderOfTwo }
{}
