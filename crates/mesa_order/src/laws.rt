// What holds of every further order.
ghost use Rattle.mesa_order.specs.Order.{AnswersThrough};

/// A query of a table may be asked of a further order of it that has every value column asked.
pub fn further_orders_answer()
    ensures { AnswersThrough }
{}
