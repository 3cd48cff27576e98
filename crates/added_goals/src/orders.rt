//! Whether two orders are one.

use crate::same::Same;
use spec_core::OrderInfo;

impl Same for OrderInfo {
    fn is_same(&self, other: &OrderInfo) -> bool {
        match (self, other) {
            (
                OrderInfo::Path { levels, statuses },
                OrderInfo::Path {
                    levels: other_levels,
                    statuses: other_statuses,
                },
            ) => levels.is_same(other_levels) && statuses.is_same(other_statuses),
            (OrderInfo::Weights { weights }, OrderInfo::Weights { weights: others }) => {
                weights.is_same(others)
            }
            _ => false,
        }
    }
}
