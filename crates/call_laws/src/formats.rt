// Theorems only: what holds of every offer and quote by paper format, whatever is lent.
