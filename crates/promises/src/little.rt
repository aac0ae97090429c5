//! What holds of the little sheets: every sheet of one to three agents with one or two values each,
//! by ordinal.
ghost use Rattle.model_little.specs.Claims.{Counted, Accepted, Starts, Found, Once, ExactlyOne};

/// There are 2, 26 and 4,968 of one, two and three agents. Each is accepted, and started under
/// either rule; each little problem is the problem of exactly one of them.
pub fn all_of_them()
    ensures counted { Counted }
    ensures accepted { Accepted }
    ensures started { Starts }
    ensures found { Found }
    ensures once { Once }
    ensures exactly_one { ExactlyOne }
{}
